/// How far a transaction is (Guerraoui and Kapalka 2008, section 4). One that has committed or aborted is completed.
#[derive(Clone, Copy, PartialEq, Eq, Debug)]
pub enum Status {
    /// It has neither ended nor asked to commit.
    Live,
    /// Commit-pending: it has asked to commit and has no answer.
    Pending,
    Committed,
    Aborted,
}
