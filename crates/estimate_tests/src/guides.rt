// Guides whose answers were worked by hand.
use crate::guide_answers::{AND, answers_are};
use test_tasks::{gripper, rivals};

/// Of six landmarks three are to come: then the robot goes over with empty hands, where it has to
/// be back for the ball.
#[test]
fn landmarks_of_a_ball_that_is_left(rt: HostRuntime) {
    let worked = [0, 3, 0, 0, AND, AND, 0, 4, 0, 0, AND, AND];
    assert!(rt; answers_are(rt.alloc(), gripper(), "lazy_greedy([lm()])", &worked));
}

/// To pick the ball is preferred, and then to go over with it.
#[test]
fn landmarks_of_a_ball_that_is_carried(rt: HostRuntime) {
    let config = "lazy_greedy([lm()],preferred=[lm()])";
    let worked = [0, 3, 0, 0, AND, 4, AND, 0, 2, 0, 0, AND, 2, AND];
    assert!(rt; answers_are(rt.alloc(), gripper(), config, &worked));
}

#[test]
fn goals_that_destroy_each_other(rt: HostRuntime) {
    let config = "lazy_greedy([lm(),ff(),add()],preferred=[ff()])";
    let worked = [0, 2, 2, 2, AND, 0, 1, AND, 0, 1, 1, 1, AND, 1, AND];
    assert!(rt; answers_are(rt.alloc(), rivals(), config, &worked));
}
