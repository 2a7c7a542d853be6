// An example that was counted by hand.
ghost use Rattle.std.specs.Prelude.{◌≡◌, [], ◌∷◌, Some, None};
ghost use Rattle.search_log.specs.Phases.{IsPhase};
ghost use Rattle.search_log.specs.Lawful.{Lawful};
ghost use Rattle.search_log.specs.Places.{past_of};
ghost use Rattle.search_log.specs.Ends.{EndsExhausted, EndsAtPops, EndsFull};
ghost use Rattle.search_log.specs.Clocks.{times_asked};
ghost use Rattle.log_laws.specs.Rivals.{greedy, three_visits, two_visits};
ghost use Rattle.log_laws.specs.Rivals.{six_pops, five_pops, three_pops};

/// Two goals that destroy each other: a lawful log of six pops has nothing left. With five pops
/// allowed it ends there; with two states allowed the third pop finds them full. So lawful logs of
/// a phase exist. With a stop the clock is asked once.
pub fn rivals_have_no_plan()
    ensures six { Lawful (greedy 6 9 None) three_visits six_pops ×
        EndsExhausted (greedy 6 9 None) (past_of (greedy 6 9 None) three_visits six_pops) }
    ensures five { Lawful (greedy 5 9 None) three_visits five_pops ×
        EndsAtPops (greedy 5 9 None) (past_of (greedy 5 9 None) three_visits five_pops) }
    ensures two { Lawful (greedy 9 2 None) two_visits three_pops ×
        EndsFull (past_of (greedy 9 2 None) two_visits three_pops) }
    ensures phase { IsPhase (greedy 6 9 None) }
    ensures asked { times_asked (greedy 6 9 (Some (record { start = 0; limit = 9 }))) six_pops ≡ 1 }
{}
