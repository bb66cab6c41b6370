// Laws of acceptance.
ghost use Rattle.std.specs.Prelude.{◌≡◌, ◌+◌, ◌↔◌, ℕ, List, [], Some, slice_get};
ghost use Rattle.pj_value.specs.declared.values.Value.{Value};
ghost use Rattle.pj_shape.specs.declared.columns.Column.{Column};
ghost use Rattle.pj_pattern.specs.declared.element.Element.{Element};
ghost use Rattle.pj_element.specs.declared.element.Read.{Read};
ghost use Rattle.pj_element.specs.declared.element.Read.TheVariants.{Tuple as ReadTuple};
ghost use Rattle.pj_element.specs.Accepted.{accepted_elements, fates, ClosedBy, IsAccepted, IsRefusedFor, Taken};
ghost use Rattle.pj_element.specs.Runs.{IsLawful};
ghost use Rattle.pj_line.specs.Fed.{PiecesGoOn};
ghost use Rattle.pj_element.specs.GoOn.{FatesGoOn, TakenGoOn, RejectsGoOn};

/// The accepted elements of a file, with the closing punctuation, are lawful.
pub fn accepted_elements_are_lawful()
    ensures { (columns : List Column) (bytes : List ℕ) → IsLawful (accepted_elements columns bytes) }
{}

/// What becomes of a line goes by its position alone: an element is taken exactly where its line is accepted,
/// and a tuple is refused exactly where a line before it closes it, of which the least is named.
pub fn acceptance_goes_by_position()
    ensures taken { (reads : List Read) (n : ℕ) (e : Element) → (slice_get (fates [] reads) n ≡ Some (Taken e)) ↔ IsAccepted reads n e }
    ensures closed { (reads : List Read) (m n : ℕ) (row : List Value) → ClosedBy reads m n row → IsRefusedFor reads m (1 + n) }
    ensures named { (reads : List Read) (m line : ℕ) (row : List Value) → slice_get reads m ≡ Some (ReadTuple row)
        → IsRefusedFor reads m line → (n : ℕ) × (line ≡ 1 + n) × ClosedBy reads m n row }
{}

/// Where some bytes are none or end with a line feed, the lines of more bytes stand behind theirs, and what becomes of the
/// lines of all begins with what becomes of theirs: so do the elements that are accepted, and the rejects.
pub fn acceptance_goes_on()
    ensures pieces { PiecesGoOn }
    ensures fates { FatesGoOn }
    ensures elements { TakenGoOn }
    ensures rejects { RejectsGoOn }
{}
