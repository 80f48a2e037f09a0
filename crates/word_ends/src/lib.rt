// Where a walk and a round of the word motions ended. The first engine has spots in them, and the
// second one places.

#![tactic(auto)]

// Where a walk ended: at the first place that fails its test, or at one that has no step.
#[derive(Clone, Copy)]
pub enum Halt<P> {
    Onto(P),
    Stuck(P),
}

// Where a round ended: the next goes on from there, or it was the last.
#[derive(Clone, Copy)]
pub enum Turn<P> {
    On(P),
    Off(P),
}
