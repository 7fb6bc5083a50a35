//! The laws of the format: what the definitions say of all byte lists at once.
ghost use Rattle.std.specs.Prelude.{◌≡◌, ◌⊎◌, ℕ, List, [], ◌∷◌};
ghost use Rattle.pbm_reader.specs.declared.fault.PageFault.{PageFault};
ghost use Rattle.packed_rows.specs.Page.{HasPicture, IsClipped, Page};
ghost use Rattle.pbm_reader.specs.Spelling.{IsPage, Spells};
ghost use Rattle.pbm_reader.specs.Fault.{HasFault};
ghost use Rattle.pbm_reader.specs.Images.{ArePages, HasPagesFault, SpellsPages};

/// Each byte list spells exactly one page or has exactly one fault, and never both; and so it is with
/// lists of pages. An input of one page spells the list of this page. It is a law of the definitions,
/// and does nothing.
pub fn each_input_is_judged()
    ensures page_or_fault { (input : List ℕ) → IsPage input ⊎ ((fault : PageFault) × HasFault input fault) }
    ensures one_page { (input : List ℕ) (p q : Page) → Spells input p → Spells input q → p ≡ q }
    ensures one_fault { (input : List ℕ) (f g : PageFault) → HasFault input f → HasFault input g → f ≡ g }
    ensures never_both { (input : List ℕ) (page : Page) (fault : PageFault) → Spells input page → HasFault input fault → ⊥ }
    ensures pages_or_fault { (input : List ℕ) → ArePages input ⊎ ((fault : PageFault) × HasPagesFault input fault) }
    ensures one_list { (input : List ℕ) (ps qs : List Page) → SpellsPages input ps → SpellsPages input qs → ps ≡ qs }
    ensures one_pages_fault { (input : List ℕ) (f g : PageFault) → HasPagesFault input f → HasPagesFault input g → f ≡ g }
    ensures never_pages_and_fault { (input : List ℕ) (pages : List Page) (fault : PageFault) → SpellsPages input pages
        → HasPagesFault input fault → ⊥ }
    ensures page_is_list { (input : List ℕ) (page : Page) → Spells input page → SpellsPages input (page ∷ []) }
{}

/// Two inputs that spell the same picture spell the same page, whatever their form, comments, white
/// bytes and padding bits are: no place outside of a page is black. It is a law of the definitions,
/// and does nothing.
pub fn equal_pictures_are_one_page()
    ensures clipped { (input : List ℕ) (page : Page) → Spells input page → IsClipped page }
    ensures one_page { (a b : List ℕ) (p q : Page) → Spells a p → Spells b q → HasPicture p q → p ≡ q }
{}
