//! Laws over the definitions, each the contract of a function that does nothing.

ghost use Rattle.std.specs.Prelude.{◌≡◌, ◌≤◌, ◌<◌, ◌++◌, ℕ, List, length, Ok, Err};
ghost use Rattle.std.specs.List.{AllByRecursion};
ghost use Rattle.aml_terms.specs.declared.fault.AmlFault.{AmlFault};
ghost use Rattle.aml_terms.specs.Trees.{Tree, Trees, view};
ghost use Rattle.aml_terms.specs.Grammar.{Aml, SpellAll, Spells, SpellsValue, levels};
ghost use Rattle.aml_terms.specs.WellFormed.{AreGood, HasFittingNumbers, HaveFittingNumbers, IsGoodValue, NestIn, NestsIn, all_plain, plain};
ghost use Rattle.aml_terms.specs.Written.{AreShort, IsShort, all_spelled, spelled};
ghost use Rattle.aml_terms.specs.Reading.{IsPlacedIn, read_terms};

use crate::term::Term;

/// States that terms are told apart by their trees.
pub fn terms_are_their_trees()
    ensures { (a b : Term) → view a ≡ view b → a ≡ b }
{}

/// States that terms are read exactly where bytes spell them.
pub fn terms_are_read_where_they_are_spelled()
    ensures read { (bytes : List ℕ) (terms : Trees) → read_terms bytes ≡ Ok terms → Aml terms bytes }
    ensures spelled { (bytes : List ℕ) (terms : Trees) → Aml terms bytes → read_terms bytes ≡ Ok terms }
{}

/// States that a fault's place is among the bytes or at their end.
pub fn faults_have_places()
    ensures { (bytes : List ℕ) (fault : AmlFault) → read_terms bytes ≡ Err fault → IsPlacedIn (length bytes) fault }
{}

/// States that at most one list of terms is spelled by given bytes.
pub fn bytes_spell_one_list_of_terms()
    ensures { (bytes : List ℕ) (terms others : Trees) → Aml terms bytes → Aml others bytes → terms ≡ others }
{}

/// States that no spelling of a term is the front of another's.
pub fn no_spelling_is_the_front_of_another()
    ensures same { (room : ℕ) (a b : Tree) (first second x y : List ℕ) → Spells room a first → Spells room b second
        → first ++ x ≡ second ++ y → a ≡ b }
    ensures whole { (room : ℕ) (a b : Tree) (first second x y : List ℕ) → Spells room a first → Spells room b second
        → first ++ x ≡ second ++ y → first ≡ second }
{}

/// States that what is written is a spelling: of well-formed terms whose numbers fit, whose lengths can be spelled, and for which there is
/// room. Each fixed integer is an integer there.
pub fn written_terms_are_spelled()
    ensures terms { (room : ℕ) (terms : Trees) → AreGood terms → HaveFittingNumbers terms → AreShort terms → NestIn room terms
        → SpellAll room (all_plain terms) (all_spelled terms) }
    ensures value { (room : ℕ) (value : Tree) → IsGoodValue value → HasFittingNumbers value → IsShort value → NestsIn room value
        → SpellsValue room (plain value) (spelled value) }
{}

/// States that written terms are read again, if they nest in at most 16 levels.
pub fn written_terms_are_read_again()
    ensures { (terms : Trees) → AreGood terms → HaveFittingNumbers terms → AreShort terms → NestIn levels terms
        → read_terms (all_spelled terms) ≡ Ok (all_plain terms) }
{}

/// States that no spelling of terms is shorter than the one that is written.
pub fn written_terms_are_the_shortest()
    ensures { (bytes : List ℕ) (terms : Trees) → AllByRecursion (λ byte. byte < 256) bytes → Aml terms bytes
        → length (all_spelled terms) ≤ length bytes }
{}

/// States that terms that bytes spell are well formed, have numbers that fit, and nest in at most 16 levels.
pub fn spelled_terms_are_well_formed()
    ensures good { (bytes : List ℕ) (terms : Trees) → AllByRecursion (λ byte. byte < 256) bytes → Aml terms bytes → AreGood terms }
    ensures fit { (bytes : List ℕ) (terms : Trees) → AllByRecursion (λ byte. byte < 256) bytes → Aml terms bytes
        → HaveFittingNumbers terms }
    ensures nest { (bytes : List ℕ) (terms : Trees) → Aml terms bytes → NestIn levels terms }
{}
