// Small tasks in the translator's output format.

/// From the first of three places to the last, in two steps of cost 1 or by a jump of cost 5.
pub fn three_places() -> &'static str {
    "begin_version
3
end_version
begin_metric
1
end_metric
1
begin_variable
var0
-1
3
Atom at(p0)
Atom at(p1)
Atom at(p2)
end_variable
0
begin_state
0
end_state
begin_goal
1
0 2
end_goal
3
begin_operator
go01
0
1
0 0 0 1
1
end_operator
begin_operator
go12
0
1
0 0 1 2
1
end_operator
begin_operator
jump
0
1
0 0 0 2
5
end_operator
0
"
}

/// The same without a metric, from the last place.
pub fn at_the_goal() -> &'static str {
    "begin_version
3
end_version
begin_metric
0
end_metric
1
begin_variable
var0
-1
3
Atom at(p0)
Atom at(p1)
Atom at(p2)
end_variable
0
begin_state
2
end_state
begin_goal
1
0 2
end_goal
3
begin_operator
go01
0
1
0 0 0 1
1
end_operator
begin_operator
go12
0
1
0 0 1 2
1
end_operator
begin_operator
jump
0
1
0 0 0 2
5
end_operator
0
"
}

/// The three places without operators.
pub fn no_operator() -> &'static str {
    "begin_version
3
end_version
begin_metric
1
end_metric
1
begin_variable
var0
-1
3
Atom at(p0)
Atom at(p1)
Atom at(p2)
end_variable
0
begin_state
0
end_state
begin_goal
1
0 2
end_goal
0
0
"
}

/// Two goals, each of whose operators destroys the other's.
pub fn rivals() -> &'static str {
    "begin_version
3
end_version
begin_metric
0
end_metric
2
begin_variable
var0
-1
2
Atom a(0)
Atom a(1)
end_variable
begin_variable
var1
-1
2
Atom b(0)
Atom b(1)
end_variable
0
begin_state
0
0
end_state
begin_goal
2
0 1
1 1
end_goal
2
begin_operator
mkA
0
2
0 0 -1 1
0 1 -1 0
1
end_operator
begin_operator
mkB
0
2
0 0 -1 0
0 1 -1 1
1
end_operator
0
"
}

/// Somebody walks through a door that must be shut again.
pub fn door() -> &'static str {
    "begin_version
3
end_version
begin_metric
0
end_metric
3
begin_variable
var0
-1
2
Atom c(0)
Atom c(1)
end_variable
begin_variable
var1
-1
2
Atom p(0)
Atom p(1)
end_variable
begin_variable
var2
0
2
Atom ajar(0)
Atom ajar(1)
end_variable
0
begin_state
1
0
0
end_state
begin_goal
2
1 1
2 0
end_goal
2
begin_operator
walk
1
0 1
1
0 1 0 1
1
end_operator
begin_operator
shut
0
1
0 0 1 0
1
end_operator
1
begin_rule
1
0 1
2 0 1
end_rule
"
}

/// Two layers of derived variables: the goal is that the upper one is false.
pub fn two_layers() -> &'static str {
    "begin_version
3
end_version
begin_metric
0
end_metric
3
begin_variable
var0
-1
2
Atom x(0)
Atom x(1)
end_variable
begin_variable
var1
0
2
Atom d(0)
Atom d(1)
end_variable
begin_variable
var2
1
2
Atom e(0)
Atom e(1)
end_variable
0
begin_state
0
0
0
end_state
begin_goal
1
2 0
end_goal
1
begin_operator
flip
0
1
0 0 0 1
1
end_operator
2
begin_rule
1
0 1
1 0 1
end_rule
begin_rule
1
1 0
2 0 1
end_rule
"
}

/// Two variables change their values by conditional effects.
pub fn swap() -> &'static str {
    "begin_version
3
end_version
begin_metric
0
end_metric
2
begin_variable
var0
-1
2
Atom x(0)
Atom x(1)
end_variable
begin_variable
var1
-1
2
Atom y(0)
Atom y(1)
end_variable
0
begin_state
0
1
end_state
begin_goal
2
0 1
1 0
end_goal
1
begin_operator
swap
0
4
1 1 1 0 -1 1
1 1 0 0 -1 0
1 0 1 1 -1 1
1 0 0 1 -1 0
1
end_operator
0
"
}

/// A variable moves between its first two values at no cost, and on to the last.
pub fn free_moves() -> &'static str {
    "begin_version
3
end_version
begin_metric
1
end_metric
1
begin_variable
var0
-1
3
Atom x(0)
Atom x(1)
Atom x(2)
end_variable
0
begin_state
0
end_state
begin_goal
1
0 2
end_goal
3
begin_operator
ab
0
1
0 0 0 1
0
end_operator
begin_operator
ba
0
1
0 0 1 0
0
end_operator
begin_operator
fin
0
1
0 0 1 2
3
end_operator
0
"
}

/// Two operators of one name, of which only the second leads on.
pub fn same_names() -> &'static str {
    "begin_version
3
end_version
begin_metric
0
end_metric
1
begin_variable
var0
-1
4
Atom x(0)
Atom x(1)
Atom x(2)
Atom x(3)
end_variable
0
begin_state
0
end_state
begin_goal
1
0 3
end_goal
3
begin_operator
step
0
1
0 0 0 1
1
end_operator
begin_operator
step
0
1
0 0 0 2
1
end_operator
begin_operator
fin
0
1
0 0 2 3
1
end_operator
0
"
}

/// Two steps of one name, the second of which can be taken after the first alone.
pub fn one_name() -> &'static str {
    "begin_version
3
end_version
begin_metric
0
end_metric
1
begin_variable
var0
-1
3
Atom at(p0)
Atom at(p1)
Atom at(p2)
end_variable
0
begin_state
0
end_state
begin_goal
1
0 2
end_goal
2
begin_operator
go
0
1
0 0 0 1
1
end_operator
begin_operator
go
0
1
0 0 1 2
1
end_operator
0
"
}

/// The three places up to the 20th line.
pub fn cut_short() -> &'static str {
    "begin_version
3
end_version
begin_metric
1
end_metric
1
begin_variable
var0
-1
3
Atom at(p0)
Atom at(p1)
Atom at(p2)
end_variable
0
begin_state
0
end_state
begin_goal
"
}

/// A task whose one variable is derived and has three values.
pub fn wide_derived() -> &'static str {
    "begin_version
3
end_version
begin_metric
1
end_metric
1
begin_variable
var0
0
3
Atom at(p0)
Atom at(p1)
Atom at(p2)
end_variable
0
begin_state
0
end_state
begin_goal
1
0 2
end_goal
0
0
"
}

/// A condition that is there twice, a conditional effect, two layers, and a goal fact that is there
/// twice.
pub fn two_conditions() -> &'static str {
    "begin_version
3
end_version
begin_metric
1
end_metric
4
begin_variable
var0
-1
2
Atom x(0)
Atom x(1)
end_variable
begin_variable
var1
-1
3
Atom y(0)
Atom y(1)
Atom y(2)
end_variable
begin_variable
var2
0
2
Atom d(0)
Atom d(1)
end_variable
begin_variable
var3
1
2
Atom e(0)
Atom e(1)
end_variable
0
begin_state
0
1
0
0
end_state
begin_goal
3
3 1
0 1
3 1
end_goal
1
begin_operator
both
0
2
2 1 1 0 0 1 -1 2
0 0 0 1
2
end_operator
2
begin_rule
1
0 1
2 0 1
end_rule
begin_rule
3
2 1
1 2
2 1
3 0 1
end_rule
"
}

/// A task in which the real cost of a state rises as it is visited again at less cost by kind.
pub fn risen_cost() -> &'static str {
    "begin_version
3
end_version
begin_metric
1
end_metric
4
begin_variable
pos
-1
4
Atom pos(0)
Atom pos(1)
Atom pos(2)
Atom pos(3)
end_variable
begin_variable
x
-1
2
Atom x(0)
Atom x(1)
end_variable
begin_variable
y
-1
2
Atom y(0)
Atom y(1)
end_variable
begin_variable
z
-1
2
Atom z(0)
Atom z(1)
end_variable
0
begin_state
0
0
0
0
end_state
begin_goal
2
1 1
2 1
end_goal
7
begin_operator
SB
0
2
0 0 0 1
0 1 -1 1
1
end_operator
begin_operator
BA
0
2
0 0 1 2
0 1 -1 0
1
end_operator
begin_operator
SA
0
1
0 0 0 2
10
end_operator
begin_operator
AC
0
1
0 0 2 3
3
end_operator
begin_operator
mkz
1
0 3
1
0 3 -1 1
1
end_operator
begin_operator
fin
2
0 3
3 1
1
0 1 -1 1
1
end_operator
begin_operator
fin2
1
0 3
1
0 2 -1 1
1
end_operator
0
"
}
