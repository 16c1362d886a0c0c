/// The nodes before and after a node of a list, `None` at either end. Of what the links
/// of all nodes spell, `specs/Links.antt` speaks; a table of rows and a pool of cells
/// stand on the same words.
#[derive(Clone, Copy, Debug)]
pub struct Link<N> {
    pub prev: Option<N>,
    pub next: Option<N>,
}
