//! Laws on commits.
ghost use Rattle.gz_store.specs.Commits.{LoadsTheLastCommit};

/// What a player of a log's text loads is what the last commit of the text left, and its state is the recovered store,
/// where only links to the path of the state change what is loaded.
#[tactic(auto, using(crate::proofs::LastCommits::loads_the_last_commit))]
pub fn loads_the_last_commit()
    ensures { LoadsTheLastCommit }
{}
