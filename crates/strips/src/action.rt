use facts::FactSet;

// An action of a task: what it needs, what it makes true, and what it makes false.
#[derive(Clone, Copy, Debug)]
pub struct Action {
    pub pre: FactSet,
    pub add: FactSet,
    pub del: FactSet,
}
