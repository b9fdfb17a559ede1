//! Laws over the definitions, each the contract of a function that does nothing.

ghost use Rattle.std.specs.Prelude.{◌≡◌, ◌++◌, ℕ, List, Some};
ghost use Rattle.std.specs.List.{AllByRecursion};
ghost use Rattle.resource_items.specs.declared.resource_item.ResourceItem.{ResourceItem};
ghost use Rattle.resource_items.specs.Templates.{FitsItem, item_bytes, template_of};
ghost use Rattle.resource_decode.specs.Items.{first_item, items_in};

/// States that bytes begin as an item is written exactly where it is the first one: one that is written is read, and one that is read stands
/// there, whatever follows.
pub fn an_item_is_read_where_it_stands()
    ensures written { (item : ResourceItem) (more : List ℕ) → FitsItem item → first_item (item_bytes item ++ more) ≡ Some item }
    ensures read { (bytes : List ℕ) (item : ResourceItem) → first_item bytes ≡ Some item → (more : List ℕ) × (bytes ≡ item_bytes item ++ more) }
{}

/// States that the items of a template are those that it was made of.
pub fn a_template_is_read()
    ensures { (items : List ResourceItem) → AllByRecursion FitsItem items → items_in (template_of items) ≡ items }
{}
