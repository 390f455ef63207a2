use crate::turn::Turn;

/// A node. In a turn that has not counted its state is the one after that turn. Where it is down, something is left of its areas, and
/// neither its state nor its disk says anything.
#[derive(Drop)]
pub struct ActNode<S, D, I, A, O, M, X> {
    pub state: S,
    pub disk: D,
    pub turn: Option<Turn<I, A, O, M>>,
    pub left: Option<X>,
}
