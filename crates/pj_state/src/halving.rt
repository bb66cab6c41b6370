// Finding an item by its ticket in a list in which tickets rise.
ghost use Rattle.std.specs.Prelude.{◌≡◌, ◌<◌, ◌≤◌, ◌/◌, ℕ, length, slice_index_or, None, IfSome, IfNone, IsTrue};
ghost use Rattle.pj_state.specs.Rising.{IsRising, SplitsAt, first_with, itself};

// In a list that is not longer no first guess pays.
const FEW: usize = 128;

/// What has a ticket.
pub trait Ticketed {
    ghost number: { Self → ℕ };

    fn ticket(&self) -> u64
        ensures { result ≡ number self.now };
}

impl Ticketed for u64 {
    ghost number = { itself };

    #[inline(always)]
    fn ticket(&self) -> u64 {
        *self
    }
}

/// How many items have at most this ticket, where the tickets rise. Looks at the last item first.
#[inline]
pub fn split_place<T: Ticketed>(items: &[T], ticket: u64) -> usize
    ensures { SplitsAt T.number ticket items.now result }
{
    let count = items.len();
    if count == 0 {
        return 0;
    }
    if items[count - 1].ticket() <= ticket {
        return count;
    }
    if count <= FEW {
        return place_in_few(items, ticket);
    }
    place_in_many(items, ticket)
}

/// The same. Looks first whether the ticket belongs to the first item.
#[inline]
#[tactic(auto, using(crate::proofs::Between::first_splits))]
pub fn split_place_early<T: Ticketed>(items: &[T], ticket: u64) -> usize
    ensures { SplitsAt T.number ticket items.now result }
{
    if items.len() > 1 {
        if items[0].ticket() <= ticket {
            if ticket < items[1].ticket() {
                return 1;
            }
        }
    }
    split_place(items, ticket)
}

// The same, by halving what is left.
#[inline]
#[tactic(auto, using(crate::proofs::Between::between_all, crate::proofs::Between::between_above, crate::proofs::Between::between_below, crate::proofs::Between::between_end))]
fn place_in_few<T: Ticketed>(items: &[T], ticket: u64) -> usize
    ensures { SplitsAt T.number ticket items.now result }
{
    let mut low = 0;
    let mut high = items.len();
    while low < high {
        let middle = low + (high - low) / 2;
        if items[middle].ticket() <= ticket {
            low = middle + 1;
        } else {
            high = middle;
        }
    }
    low
}

// The same. Looks first where the ticket would stand if they rose evenly, then from there at twice as far each time, and at
// last halves what is left.
#[tactic(auto, using(crate::proofs::Between::probed_all, crate::proofs::Between::probed_above, crate::proofs::Between::probed_below, crate::proofs::Between::probed_end))]
fn place_in_many<T: Ticketed>(items: &[T], ticket: u64) -> usize
    ensures { SplitsAt T.number ticket items.now result }
{
    let mut low = 0;
    let mut high = items.len();
    let mut middle = even_place(items, ticket);
    let mut step = 0;
    while low < high {
        if items[middle].ticket() <= ticket {
            low = middle + 1;
            middle = low + at_most_half(step, high - low);
        } else {
            high = middle;
            middle = high.saturating_sub(1 + at_most_half(step, high - low));
        }
        step = step.wrapping_mul(2).wrapping_add(1);
    }
    low
}

// Where the ticket would stand if the tickets rose evenly.
fn even_place<T: Ticketed>(items: &[T], ticket: u64) -> usize
    ensures { 0 < length items.now → result < length items.now }
{
    let count = items.len();
    if count == 0 {
        return 0;
    }
    let first = items[0].ticket();
    let last = items[count - 1].ticket();
    if ticket <= first {
        return 0;
    }
    if ticket >= last {
        return count - 1;
    }
    let at = (ticket - first).wrapping_mul(count as u64 - 1) / (last - first);
    (at as usize).min(count - 1)
}

// So many steps, and half of the room at most.
#[inline(always)]
fn at_most_half(step: usize, room: usize) -> usize
    ensures { result ≤ room / 2 }
{
    step.min(room / 2)
}

/// The place of the item with this ticket; where the tickets rise, `None` exactly where there is none. Looks at the first and
/// the last item first.
#[inline]
pub fn position<T: Ticketed>(items: &[T], ticket: u64) -> Option<usize>
    ensures within { IfSome result (λ at. at < length items.now) }
    ensures found { IfSome result (λ at. (d : T) → T.number (slice_index_or items.now at d) ≡ ticket) }
    ensures missing { IfNone result (IsRising T.number items.now → first_with T.number ticket items.now ≡ None) }
{
    if is_first(items, ticket) {
        return Some(0);
    }
    let behind = split_place(items, ticket);
    if behind == 0 {
        return None;
    }
    if items[behind - 1].ticket() != ticket {
        return None;
    }
    Some(behind - 1)
}

// Whether the first item has this ticket.
#[inline(always)]
fn is_first<T: Ticketed>(items: &[T], ticket: u64) -> bool
    ensures within { IsTrue result → 0 < length items.now }
    ensures found { IsTrue result → (d : T) → T.number (slice_index_or items.now 0 d) ≡ ticket }
{
    items.len() > 0 && items[0].ticket() == ticket
}
