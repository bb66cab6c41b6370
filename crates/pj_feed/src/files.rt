// The files of the streams, which are read as the run goes on.
ghost use Rattle.std.specs.Prelude.{◌≡◌, ◌≤◌, ◌<◌, ◌+◌, ◌++◌, ◌∷◌, ℕ, List, [], IfOk, OnOk, IsOk, Err, length, vec_capacity};
ghost use Rattle.pj_io.specs.Folders.{NoneFalls, SameEverywhere};
ghost use Rattle.pj_plan.specs.Nodes.{streams_in};
ghost use Rattle.pj_feed.specs.Feeds.{tallies_in};
ghost use Rattle.pj_feed.specs.Opened.{IsFeedOf, AreFeedsOf, AreOpened, HasLasts, AreCounted, OpensFirst, OpensAtMost, TriesAtMost, FailsToOpen, IsFaultAt, names_in, StayOutside};

use crate::feeds::Feed;
use crate::stops::OpeningStop;
use pj_element::Tally;
use pj_intake::Intake;
use pj_io::{Folder, OpenStop};
use pj_plan::Plan;
use pj_shape::Schema;
use pj_value::{Bytes, List, NoMemory};
use std::alloc::Global;

// A stream's file has fewer bytes than this.
const STREAM_LIMIT: u64 = 1 << 40;

/// Opens the files of these names in order, one for each stream, and puts a feed for each into the list, which is empty and has
/// room for them. After an `Err` the feeds are those of the files that were opened, and no names behind the one that was tried
/// last were touched.
#[tactic(auto, using(crate::proofs::StreamNodes::count_numbers))]
pub fn open_feeds<F: Folder>(
    alloc: Global,
    folder: &mut F,
    plan: &Plan,
    names: &[Bytes],
    feeds: &mut Vec<Feed<F::File>>,
) -> Result<(), OpeningStop>
    requires none { feeds.old.items ≡ [] }
    requires room { length (streams_in plan.now.nodes) ≤ vec_capacity feeds.old }
    requires each { length names.now ≡ length (streams_in plan.now.nodes) }
    requires few { length (streams_in plan.now.nodes) ≤ 128 }
    ensures told { (F.state folder.new).told ≡ (F.state folder.old).told }
    ensures contents { (F.state folder.new).contents ≡ (F.state folder.old).contents }
    ensures feeds { AreFeedsOf 0 (streams_in plan.now.nodes) names.now (F.state folder.old) feeds.new.items }
    ensures all { OnOk result (length feeds.new.items ≡ length (streams_in plan.now.nodes)) }
    ensures opened { AreOpened (F.state folder.new).opened feeds.new.items }
    ensures some_opened { (tries : TriesAtMost (length names.now) names.now (F.state folder.old) (F.state folder.new)) × (length feeds.new.items ≤ tries.count) }
    ensures all_opened { OnOk result (OpensFirst (length names.now) names.now (F.state folder.old) (F.state folder.new)) }
    ensures last { (result ≡ Err OpeningStop.NoMemory → ⊥) → SameEverywhere (F.state folder.old).last (F.state folder.new).last }
    ensures later { NoneFalls (F.state folder.old).faults (F.state folder.new).faults }
    ensures others { StayOutside names.now (F.state folder.old) (F.state folder.new) }
    ensures fault { (stream : ℕ) → result ≡ Err (OpeningStop.Fault stream) → IsFaultAt stream names.now feeds.new.items (F.state folder.old) (F.state folder.new) }
{
    let streams = plan.streams();
    for i in 0..streams.len() {
        let schema = plan.schema(streams[i]);
        let feed = open_feed(alloc, folder, i as u32, schema, names[i].as_slice())?;
        feeds.push_reserved(feed);
    }
    Ok(())
}

// Opens the file of a name as that of a stream.
fn open_feed<F: Folder>(
    alloc: Global,
    folder: &mut F,
    stream: u32,
    columns: &Schema,
    name: &[u8],
) -> Result<Feed<F::File>, OpeningStop>
    ensures told { (F.state folder.new).told ≡ (F.state folder.old).told }
    ensures contents { (F.state folder.new).contents ≡ (F.state folder.old).contents }
    ensures feed { IfOk result (λ feed. IsFeedOf stream columns.now name.now (F.state folder.old) feed) }
    ensures opened { OpensAtMost 1 (name.now ∷ []) (F.state folder.old) (F.state folder.new) }
    ensures was_opened { OnOk result (OpensFirst 1 (name.now ∷ []) (F.state folder.old) (F.state folder.new)) }
    ensures last { (result ≡ Err OpeningStop.NoMemory → ⊥) → SameEverywhere (F.state folder.old).last (F.state folder.new).last }
    ensures later { NoneFalls (F.state folder.old).faults (F.state folder.new).faults }
    ensures others { StayOutside (name.now ∷ []) (F.state folder.old) (F.state folder.new) }
    ensures fault { (n : ℕ) → result ≡ Err (OpeningStop.Fault n) → (n ≡ stream) × FailsToOpen name.now (F.state folder.old) (F.state folder.new) }
{
    let schema = columns.copy(alloc)?;
    let file = match folder.open_file(alloc, name) {
        Ok(file) => file,
        Err(OpenStop::Failed) => return Err(OpeningStop::Fault { stream }),
        Err(OpenStop::NoMemory) => return Err(OpeningStop::NoMemory),
    };
    match Intake::new(alloc, schema, file, STREAM_LIMIT) {
        Ok(intake) => Ok(Feed::new(stream, intake)),
        Err((file, _)) => {
            folder.close_file(file);
            Err(OpeningStop::NoMemory)
        }
    }
}

/// Closes the files of the feeds, and gives the counts of their lines. All files are closed, also where memory is wanting.
pub fn close_feeds<F: Folder>(
    alloc: Global,
    folder: &mut F,
    feeds: Vec<Feed<F::File>>,
) -> Result<List<Tally>, NoMemory>
    requires opened { AreOpened (F.state folder.old).opened feeds.items }
    ensures tallies { IfOk result (λ tallies. tallies ≡ tallies_in feeds.items) }
    ensures told { (F.state folder.new).told ≡ (F.state folder.old).told }
    ensures contents { (F.state folder.new).contents ≡ (F.state folder.old).contents }
    ensures still_opened { SameEverywhere (F.state folder.old).opened (F.state folder.new).opened }
    ensures last { HasLasts feeds.items (F.state folder.old).last (F.state folder.new).last }
    ensures later { NoneFalls (F.state folder.old).faults (F.state folder.new).faults }
    ensures faults { AreCounted (F.state folder.old).faults (F.state folder.new).faults feeds.items }
    ensures others { StayOutside (names_in feeds.items) (F.state folder.old) (F.state folder.new) }
{
    let mut tallies = Ok(List::new(alloc));
    let mut rest = feeds.into_iter();
    while let Some(feed) = rest.next() {
        let (file, tally) = feed.close();
        folder.close_file(file);
        tallies = with_tally(tallies, tally);
    }
    rest.destroy_empty();
    tallies
}

// The counts so far with one more, unless memory was wanting.
fn with_tally(tallies: Result<List<Tally>, NoMemory>, tally: Tally) -> Result<List<Tally>, NoMemory>
    ensures all { IfOk result (λ all. IfOk tallies (λ before. all ≡ before ++ tally ∷ [])) }
    ensures ok { IsOk result → IsOk tallies }
{
    match tallies {
        Ok(mut before) => {
            before.push(tally)?;
            Ok(before)
        }
        Err(stop) => Err(stop),
    }
}
