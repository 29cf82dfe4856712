//! What a block declares.
ghost use Rattle.std.specs.Prelude.{◌≡◌};
ghost use Rattle.std.specs.List.{list_any};
ghost use Rattle.sl_syntax.specs.TreeView.{item_of, items_of};
ghost use Rattle.sl_typing.specs.Sites as spec;
ghost use Rattle.sl_statement_types.specs.Means.Blocks.{is_container_item};

use sl_syntax::{Declaration, Item};

// Whether an item declares a container.
fn is_container_item(item: &Item) -> bool
    ensures { result ≡ is_container_item (item_of item.now) }
{
    matches!(item, Item::Declaration(Declaration::Container { .. }))
}

// Whether one of these items declares a container.
fn any_container_item(items: &[Item]) -> bool
    ensures { result ≡ list_any (λ item. is_container_item (item_of item)) items.now }
{
    items.iter().any(
        |item| -> bool
            ensures { result ≡ is_container_item (item_of item.now) }
        { is_container_item(item) },
    )
}

/// Whether a block with these items declares a container. It takes no memory.
#[tactic(auto, using(crate::proofs::BlockLaws::any_declares))]
pub fn declares_container(items: &[Item]) -> bool
    ensures { result ≡ spec.declares_container (items_of items.now) }
{
    any_container_item(items)
}
