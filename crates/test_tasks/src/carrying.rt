// A task with a mutex group.

/// A robot with one gripper carries a ball from one room to another.
pub fn gripper() -> &'static str {
    "begin_version
3
end_version
begin_metric
0
end_metric
3
begin_variable
var0
-1
2
Atom at-robby(rooma)
Atom at-robby(roomb)
end_variable
begin_variable
var1
-1
3
Atom at(ball1, rooma)
Atom at(ball1, roomb)
Atom carry(ball1, left)
end_variable
begin_variable
var2
-1
2
Atom free(left)
NegatedAtom free(left)
end_variable
1
begin_mutex_group
2
1 2
2 0
end_mutex_group
begin_state
0
0
0
end_state
begin_goal
1
1 1
end_goal
6
begin_operator
drop ball1 rooma left
1
0 0
2
0 1 2 0
0 2 -1 0
1
end_operator
begin_operator
drop ball1 roomb left
1
0 1
2
0 1 2 1
0 2 -1 0
1
end_operator
begin_operator
move rooma roomb
0
1
0 0 0 1
1
end_operator
begin_operator
move roomb rooma
0
1
0 0 1 0
1
end_operator
begin_operator
pick ball1 rooma left
1
0 0
2
0 1 0 2
0 2 0 1
1
end_operator
begin_operator
pick ball1 roomb left
1
0 1
2
0 1 1 2
0 2 0 1
1
end_operator
0
"
}
