// Tasks with operators of one name.
use lama_num::Seq;
use sas_task::{Fact, Operator, Parts, Task, Variable};
use std::alloc::{AllocError, Global};
use test_tasks::{fact, giving, task_of, variable};

/// A variable is set by either of two operators `go`, at a cost of 2 or of 3.
pub fn same_names_costs() -> &'static str {
    "begin_version
3
end_version
begin_metric
1
end_metric
1
begin_variable
x
-1
2
Atom x(0)
Atom x(1)
end_variable
0
begin_state
0
end_state
begin_goal
1
0 1
end_goal
2
begin_operator
go
0
1
0 0 0 1
2
end_operator
begin_operator
go
0
1
0 0 0 1
3
end_operator
0
"
}

/// How many switches there are.
const SWITCHES: u32 = 17;

/// An operator that sets a switch to a value. The name of all that set it is one letter.
fn setting(alloc: Global, switch: u32, value: u32) -> Result<Operator, AllocError> {
    let mut operator = giving(alloc, &[], fact(switch, value), 1)?;
    operator.name.push(b'a' + (switch % 26) as u8)?;
    Ok(operator)
}

fn operators(alloc: Global) -> Result<Seq<Operator>, AllocError> {
    let mut operators = Seq::new(alloc);
    for switch in 0..SWITCHES {
        operators.push(setting(alloc, switch, 1)?)?;
        operators.push(setting(alloc, switch, 0)?)?;
    }
    Ok(operators)
}

fn variables(alloc: Global) -> Result<Seq<Variable>, AllocError> {
    let mut variables = Seq::new(alloc);
    for _ in 0..SWITCHES {
        variables.push(variable(alloc, None, 2)?)?;
    }
    Ok(variables)
}

fn init(alloc: Global) -> Result<Seq<u32>, AllocError> {
    let mut init = Seq::new(alloc);
    for _ in 0..SWITCHES {
        init.push(0)?;
    }
    Ok(init)
}

/// All switches are 1.
fn goal(alloc: Global) -> Result<Seq<Fact>, AllocError> {
    let mut goal = Seq::new(alloc);
    for switch in 0..SWITCHES {
        goal.push(fact(switch, 1))?;
    }
    Ok(goal)
}

fn parts(alloc: Global) -> Result<Parts, AllocError> {
    Ok(Parts {
        metric: false,
        variables: variables(alloc)?,
        groups: Seq::new(alloc),
        init: init(alloc)?,
        goal: goal(alloc)?,
        operators: operators(alloc)?,
        rules: Seq::new(alloc),
    })
}

/// The task of seventeen switches, each of which two operators of one name set to 1 and to 0.
pub fn seventeen_switches(alloc: Global) -> Option<Task> {
    match parts(alloc) {
        Ok(parts) => task_of(parts),
        Err(AllocError) => None,
    }
}

/// A plan file with the names of sixteen switches, in order.
pub fn sixteen_steps() -> &'static str {
    "(a)
(b)
(c)
(d)
(e)
(f)
(g)
(h)
(i)
(j)
(k)
(l)
(m)
(n)
(o)
(p)
; cost = 16 (unit cost)
"
}

/// The same of all switches.
pub fn seventeen_steps() -> &'static str {
    "(a)
(b)
(c)
(d)
(e)
(f)
(g)
(h)
(i)
(j)
(k)
(l)
(m)
(n)
(o)
(p)
(q)
; cost = 17 (unit cost)
"
}
