//! Laws over the definitions, each the contract of a function that does nothing.

ghost use Rattle.std.specs.Prelude.{◌≡◌, ◌++◌, ℕ, List};
ghost use Rattle.std.specs.List.{AllByRecursion};
ghost use Rattle.resource_items.specs.declared.resource_item.ResourceItem.{ResourceItem};
ghost use Rattle.resource_items.specs.declared.resource_item.ResourceItem.TheVariants.{Word};
ghost use Rattle.resource_items.specs.Templates.{FitsItem, item_bytes, template_of};
ghost use Rattle.resource_items.specs.WorkedItems.{port_and_irq, port_and_irq_bytes, buses, buses_bytes, memories, memories_bytes};

use crate::resource_item::ResourceItem;

/// States that no item is the front of another: bytes that begin with two items begin with one item.
pub fn no_item_is_the_front_of_another()
    ensures same { (a b : ResourceItem) (x y : List ℕ) → FitsItem a → FitsItem b → item_bytes a ++ x ≡ item_bytes b ++ y → a ≡ b }
    ensures whole { (a b : ResourceItem) (x y : List ℕ) → FitsItem a → FitsItem b → item_bytes a ++ x ≡ item_bytes b ++ y
        → item_bytes a ≡ item_bytes b }
{}

/// States that bytes are the template of at most one list of items, and that no template is the front of another.
pub fn bytes_are_one_list_of_items()
    ensures one { (items others : List ResourceItem) → AllByRecursion FitsItem items → AllByRecursion FitsItem others
        → template_of items ≡ template_of others → items ≡ others }
    ensures whole { (items others : List ResourceItem) (x y : List ℕ) → AllByRecursion FitsItem items → AllByRecursion FitsItem others
        → template_of items ++ x ≡ template_of others ++ y → template_of items ≡ template_of others }
{}

/// States the bytes of templates, and of an item, that were worked out by hand.
pub fn worked_items()
    ensures port_and_irq { template_of port_and_irq ≡ port_and_irq_bytes }
    ensures buses { item_bytes (Word buses) ≡ buses_bytes }
    ensures memories { template_of memories ≡ memories_bytes }
{}

/// States that the numbers of an item fit its rows, as the types of its fields say.
pub fn numbers_of_an_item_fit(item: ResourceItem)
    ensures { FitsItem item }
{}
