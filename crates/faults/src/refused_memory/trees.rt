//! Trees, which want memory for each folder.
use crate::trees::{SourceFault, answer_of, tree_of};
use glob_trees::TreeFault;
use std::alloc::AllocError;
use std::test::Fail;

#[test]
fn trees_ask_for_folders(rt: HostRuntime) -> Result<(), Fail> {
    let mut tree = tree_of(rt.alloc(), 0)?;
    let first = answer_of(&mut tree, b"a/b/x");
    // the call after one that was refused memory answers
    let second = answer_of(&mut tree, b"a/b/x");
    assert!(rt; second == Ok(Some((2, 0))));
    assert!(rt; answer_of(&mut tree, b"a/x") == Ok(Some((1, 0))));
    match first {
        Ok(answer) => assert!(rt; answer == Some((2, 0))),
        Err(TreeFault::Memory | TreeFault::Source(SourceFault::Memory)) => {
            return Err(AllocError.into());
        }
        Err(TreeFault::Source(SourceFault::Broken)) => return Err(Fail::new("no fault of memory")),
    }
    Ok(())
}
