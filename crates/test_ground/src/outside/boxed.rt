//! A type that holds itself by a box and by a list: built, walked and given up, as a value without addresses.

ghost use Rattle.std.specs.Prelude.{◌≡◌, [], ◌∷◌, IfOk};
ghost use Rattle.test_ground.specs.declared.outside.boxed.Tree.TheVariants.{Leaf, Under, Row};

use std::alloc::Global;
use std::process::Abort;
use std::test::Fail;
use vt_outside::{Boxed, List, OutOfMemory};

// A tree.
#[derive(Debug, Drop)]
enum Tree {
    Leaf(u8),
    Under(Boxed<Tree>),
    Row(List<Tree>),
}

#[test]
fn a_value_in_a_box(rt: HostRuntime) -> Result<(), Fail> {
    let mut boxed = Boxed::new(rt.alloc(), 7u32)?;
    assert_eq!(rt; *boxed.get(), 7);
    *boxed.get_mut() = 8;
    assert_eq!(rt; boxed.into_inner(), 8);
    Ok(())
}

#[test]
fn a_tree_of_boxes_and_lists(rt: HostRuntime) -> Result<(), Fail> {
    let tree = sample(rt.alloc())?;
    is_sample(&rt, &tree);
    drop(tree);
    Ok(())
}

// A leaf below a box, in a row.
fn sample(alloc: Global) -> Result<Tree, OutOfMemory>
    ensures { IfOk result (λ tree. tree ≡ Row (Under (Leaf 5) ∷ [])) }
{
    let mut row = List::new(alloc);
    row.push(Tree::Under(Boxed::new(alloc, Tree::Leaf(5))?))?;
    Ok(Tree::Row(row))
}

fn is_sample(rt: &impl Abort, tree: &Tree) {
    match tree {
        Tree::Row(row) => match row.as_slice() {
            [Tree::Under(inner)] => assert!(rt; matches!(inner.get(), Tree::Leaf(5))),
            _ => assert!(rt; false),
        },
        _ => assert!(rt; false),
    }
}
