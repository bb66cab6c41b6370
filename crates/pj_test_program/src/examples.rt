// The files of the examples, and their commands, of which each writes the last of its row and ends with the number before it. The files
// are called by their places. tools/examples writes this, and compares it.

pub(crate) const AUCTION_PLAN: &[u8] =
    b"plan 1\n# an auction: of each item its bids and the highest, once no more can come\nstream items item:int seller:text\nstream bids bitem:int price:int\nscheme items + _\nscheme bids + _\njoin j items bids on item=bitem\nproject p j item seller price\ngroup top p by item seller of bids=count price=max:price\noutput top\n";

pub(crate) const AUCTION_ITEMS: &[u8] =
    b"# items for sale: a number, and who sells\nt 1 \"ann\"\nt 2 \"bob\"\np 1 *\nt 3 \"cyd\"\np 2 *\n";

pub(crate) const AUCTION_BIDS: &[u8] =
    b"# bids: the item, and the price in cents\nt 1 5000\nt 2 1200\nt 1 5500\np 1 *\nt 1 6000\nt 3 900\n";

pub(crate) const AUCTION_OUT: &[u8] =
    b"t 1 \"ann\" 2 5500\np 1 * * *\nt 2 \"bob\" 1 1200\nt 3 \"cyd\" 1 900\np * * * *\np 2 * * *\np * * * *\n# stream items tuples 3 punctuations 2 rejected 0\n# stream bids tuples 4 punctuations 1 rejected 1\n# reject bids line 6 closed by line 5\n# results 3 punctuations 4\n# peak j 5\n";

pub(crate) const AUCTION_SAFE_OUT: &[u8] =
    b"# safe join j input items: bids by + _\n# safe join j input bids: items by + _\n";

pub(crate) const ORDERS_PLAN: &[u8] =
    b"plan 1\n# orders paid and shipped\nstream orders oid:int cust:text\nstream pays poid:int amount:int\nstream ships soid:int depot:text\nscheme orders + _\nscheme pays + _\nscheme ships + _\nselect big pays where amount [10..]\njoin j orders big ships on oid=poid=soid\nproject p j oid cust amount\ngroup g p by oid cust of paid=sum:amount\noutput g\n";

pub(crate) const ORDERS_ORDERS: &[u8] =
    b"t 1 \"ann\"\np 1 *\nt 2 \"bob\"\nt 3 \"cyd\"\np {2|3} *\n";

pub(crate) const ORDERS_PAYS: &[u8] = b"t 1 40\nt 2 5\nt 1 60\np 1 *\nt 3 25\np 3 *\nt 2 70\n";

pub(crate) const ORDERS_SHIPS: &[u8] = b"t 1 \"east\"\nt 3 \"west\"\np [..3] *\n";

pub(crate) const ORDERS_OUT: &[u8] =
    b"t 1 \"ann\" 100\np 1 * *\nt 3 \"cyd\" 25\np * * *\np {2|3} * *\np * * *\np * * *\n# stream orders tuples 3 punctuations 2 rejected 0\n# stream pays tuples 5 punctuations 2 rejected 0\n# stream ships tuples 2 punctuations 1 rejected 0\n# results 2 punctuations 5\n# peak j 6\n";

pub(crate) const ORDERS_TRACE_OUT: &[u8] =
    b"# purge j big t 1 40\n# purge j big t 1 60\n# purge j orders t 1 \"ann\"\nt 1 \"ann\" 100\np 1 * *\n# purge j ships t 1 \"east\"\n# purge j big t 3 25\n# purge j orders t 3 \"cyd\"\n# purge j ships t 3 \"west\"\nt 3 \"cyd\" 25\np * * *\n# purge j orders t 2 \"bob\"\np {2|3} * *\np * * *\n# purge j big t 2 70\np * * *\n# stream orders tuples 3 punctuations 2 rejected 0\n# stream pays tuples 5 punctuations 2 rejected 0\n# stream ships tuples 2 punctuations 1 rejected 0\n# results 2 punctuations 5\n# peak j 6\n";

pub(crate) const REPLAY_UNSAFE: &[u8] =
    b"plan 1\n# parcels, and where they are scanned on their way\nstream parcels parcel:int home:text\nscheme parcels + _\nstream scans scanned:int place:text\nscheme scans + +\njoin j parcels scans on parcel=scanned\noutput j\n";

pub(crate) const REPLAY_UNSAFE_OUT: &[u8] =
    b"# unsafe join j input parcels: cannot reach scans\n# reached: parcels\n# partner scans t 0 \"a\"\n# safe join j input scans: parcels by + _\n";

pub(crate) const REPLAY_PLAN: &[u8] =
    b"plan 1\n# parcels, and where they are scanned on their way\nstream parcels parcel:int home:text\nscheme parcels + _\nstream scans scanned:int place:text\nscheme scans + _\njoin j parcels scans on parcel=scanned\noutput j\n";

pub(crate) const REPLAY_PLAN_OUT: &[u8] =
    b"# safe join j input parcels: scans by + _\n# safe join j input scans: parcels by + _\n";

pub(crate) const REPLAY_EARLY: &[u8] =
    b"# each tuple is probed before the next element arrives\narrive parcels\ntake\ngive j 0\narrive scans\ntake\ngive j 1\narrive scans\ntake\ngive j 2\n# parcel 1 is closed on both sides, and swept away\narrive parcels\narrive scans\nsweep j parcels\nsweep j scans\n";

pub(crate) const REPLAY_PARCELS: &[u8] =
    b"t 1 \"oslo\"\n# parcel 1 is sent only once\np 1 *\nt 2 \"bergen\"\n";

pub(crate) const REPLAY_SCANS: &[u8] =
    b"t 1 \"lund\"\nt 1 \"oslo\"\n# parcel 1 has come home: it is not scanned again\np 1 *\nt 2 \"lund\"\n";

pub(crate) const REPLAY_EARLY_OUT: &[u8] =
    b"t 1 \"oslo\" 1 \"lund\"\nt 1 \"oslo\" 1 \"oslo\"\n# purge j parcels t 1 \"oslo\"\np 1 * * *\n# purge j scans t 1 \"lund\"\n# purge j scans t 1 \"oslo\"\np * * 1 *\nt 2 \"bergen\" 2 \"lund\"\n# purge j scans t 2 \"lund\"\np * * * *\n# purge j parcels t 2 \"bergen\"\np * * * *\n# stream parcels tuples 2 punctuations 1 rejected 0\n# stream scans tuples 3 punctuations 1 rejected 0\n# results 3 punctuations 4\n# peak j 3\n";

pub(crate) const REPLAY_LATE: &[u8] =
    b"# all elements arrive, and all tuples are taken\narrive parcels\narrive scans\narrive parcels\narrive scans\narrive parcels\narrive scans\narrive scans\ntake\ntake\ntake\ntake\ntake\n# nothing goes while ticket 0 is under way\nsweep j parcels\nsweep j scans\n# the last ticket is given first\ngive j 6\ngive j 4\ngive j 3\ndrain\ngive j 1\ngive j 0\n";

pub(crate) const REPLAY_LATE_OUT: &[u8] =
    b"t 2 \"bergen\" 2 \"lund\"\nt 1 \"oslo\" 1 \"oslo\"\nt 1 \"oslo\" 1 \"lund\"\n# purge j parcels t 1 \"oslo\"\np 1 * * *\n# purge j scans t 1 \"lund\"\n# purge j scans t 1 \"oslo\"\np * * 1 *\n# purge j scans t 2 \"lund\"\np * * * *\n# purge j parcels t 2 \"bergen\"\np * * * *\n# stream parcels tuples 2 punctuations 1 rejected 0\n# stream scans tuples 3 punctuations 1 rejected 0\n# results 3 punctuations 4\n# peak j 5\n";

pub(crate) const SENSORS_PLAN: &[u8] =
    b"plan 1\n# three sensors of a machine hall: of each hour and sensor, how many readings of 18 degrees and more, and the highest\nstream door hour:int sensor:text degrees:int\nstream hall hour:int sensor:text degrees:int\nstream press hour:int sensor:text degrees:int\nunion all door hall press\nselect warm all where degrees [18..]\ngroup hours warm by hour sensor of readings=count highest=max:degrees\noutput hours\n";

pub(crate) const SENSORS_DOOR: &[u8] =
    b"t 7 \"door\" 18\nt 7 \"door\" 17\n# hour 7 is over, and so is all before: a watermark\np [..7] * *\nt 8 \"door\" 19\n# too late\nt 7 \"door\" 20\np [..8] * *\n";

pub(crate) const SENSORS_HALL: &[u8] =
    b"t 7 \"hall\" 21\np [..7] * *\nt 8 \"hall\" 22\nt 8 \"hall\" 24\np [..8] * *\nt nine \"hall\" 20\n";

pub(crate) const SENSORS_PRESS: &[u8] =
    b"t 7 \"press \\\"2\\\"\" 61\nt 7 \"press \\\"2\\\"\" 64\np [..7] * *\nt 8 \"press \\\"2\\\"\" 63\np [..8] * *\n";

pub(crate) const SENSORS_OUT: &[u8] =
    b"t 7 \"door\" 1 18\nt 7 \"hall\" 1 21\nt 7 \"press \\\"2\\\"\" 2 64\np [..7] * * *\np [..7] * * *\np [..7] * * *\nt 8 \"hall\" 2 24\nt 8 \"door\" 1 19\nt 8 \"press \\\"2\\\"\" 1 63\np [..8] * * *\np [..8] * * *\np [..8] * * *\np * * * *\np * * * *\np * * * *\n# stream door tuples 3 punctuations 2 rejected 1\n# reject door line 7 closed by line 4\n# stream hall tuples 3 punctuations 2 rejected 1\n# reject hall line 6 bad cell 1\n# stream press tuples 3 punctuations 2 rejected 0\n# results 6 punctuations 9\n";

pub(crate) const SENSORS_SORTED_OUT: &[u8] =
    b"t 7 \"door\" 1 18\nt 7 \"hall\" 1 21\nt 7 \"press \\\"2\\\"\" 2 64\nt 8 \"door\" 1 19\nt 8 \"hall\" 2 24\nt 8 \"press \\\"2\\\"\" 1 63\np * * * *\np * * * *\np * * * *\np [..7] * * *\np [..7] * * *\np [..7] * * *\np [..8] * * *\np [..8] * * *\np [..8] * * *\n# stream door tuples 3 punctuations 2 rejected 1\n# reject door line 7 closed by line 4\n# stream hall tuples 3 punctuations 2 rejected 1\n# reject hall line 6 bad cell 1\n# stream press tuples 3 punctuations 2 rejected 0\n# results 6 punctuations 9\n";

pub(crate) const UNSAFE_PLAN: &[u8] =
    b"plan 1\n# clicks are joined with the pages that they are on; nobody promises that no more clicks of a page come\nstream pages page:int title:text\nstream clicks cpage:int user:text\nscheme pages + _\nscheme clicks _ +\njoin j pages clicks on page=cpage\noutput j\n";

pub(crate) const UNSAFE_PAGES: &[u8] = b"t 1 \"home\"\nt 2 \"news\"\np {1|2} *\n";

pub(crate) const UNSAFE_CLICKS: &[u8] = b"t 1 \"ann\"\nt 2 \"bob\"\np 2 *\nt 1 \"cyd\"\n";

pub(crate) const UNSAFE_REFUSED_OUT: &[u8] =
    b"# unsafe join j input pages: cannot reach clicks\n# reached: pages\n";

pub(crate) const UNSAFE_UNSAFE_OUT: &[u8] =
    b"# unsafe join j input pages: cannot reach clicks\n# reached: pages\n# partner clicks t 0 \"a\"\n# safe join j input clicks: pages by + _\n";

pub(crate) const UNSAFE_MENDED: &[u8] =
    b"plan 1\n# the same, where clicks promise by page: a closed page is no longer clicked\nstream pages page:int title:text\nstream clicks cpage:int user:text\nscheme pages + _\nscheme clicks + _\njoin j pages clicks on page=cpage\noutput j\n";

pub(crate) const UNSAFE_SAFE_OUT: &[u8] =
    b"# safe join j input pages: clicks by + _\n# safe join j input clicks: pages by + _\n";

pub(crate) const UNSAFE_OUT: &[u8] =
    b"t 1 \"home\" 1 \"ann\"\nt 2 \"news\" 2 \"bob\"\n# purge j clicks t 1 \"ann\"\n# purge j clicks t 2 \"bob\"\np * * 2 *\n# purge j pages t 2 \"news\"\nt 1 \"home\" 1 \"cyd\"\n# purge j pages t 1 \"home\"\np {1|2} * * *\np * * * *\n# purge j clicks t 1 \"cyd\"\np * * * *\n# stream pages tuples 2 punctuations 1 rejected 0\n# stream clicks tuples 3 punctuations 1 rejected 0\n# results 3 punctuations 4\n# peak j 4\n";

#[rattlefmt::skip]
pub(crate) const EXAMPLES: [(&str, &str, [&[u8]; 5], u8, &[u8]); 14] = [
    ("auction", "run --workers=0 plan a b", [AUCTION_PLAN, b"", AUCTION_ITEMS, AUCTION_BIDS, b""], 0, AUCTION_OUT),
    ("auction", "check plan", [AUCTION_PLAN, b"", b"", b"", b""], 0, AUCTION_SAFE_OUT),
    ("orders", "run --workers=0 plan a b c", [ORDERS_PLAN, b"", ORDERS_ORDERS, ORDERS_PAYS, ORDERS_SHIPS], 0, ORDERS_OUT),
    ("orders", "run --workers=0 plan a b c --trace", [ORDERS_PLAN, b"", ORDERS_ORDERS, ORDERS_PAYS, ORDERS_SHIPS], 0, ORDERS_TRACE_OUT),
    ("replay", "check plan", [REPLAY_UNSAFE, b"", b"", b"", b""], 2, REPLAY_UNSAFE_OUT),
    ("replay", "check plan", [REPLAY_PLAN, b"", b"", b"", b""], 0, REPLAY_PLAN_OUT),
    ("replay", "replay plan script a b --trace", [REPLAY_PLAN, REPLAY_EARLY, REPLAY_PARCELS, REPLAY_SCANS, b""], 0, REPLAY_EARLY_OUT),
    ("replay", "replay plan script a b --trace", [REPLAY_PLAN, REPLAY_LATE, REPLAY_PARCELS, REPLAY_SCANS, b""], 0, REPLAY_LATE_OUT),
    ("sensors", "run --workers=0 plan a b c", [SENSORS_PLAN, b"", SENSORS_DOOR, SENSORS_HALL, SENSORS_PRESS], 0, SENSORS_OUT),
    ("sensors", "run plan a b c --sorted", [SENSORS_PLAN, b"", SENSORS_DOOR, SENSORS_HALL, SENSORS_PRESS], 0, SENSORS_SORTED_OUT),
    ("unsafe", "run --workers=0 plan a b", [UNSAFE_PLAN, b"", UNSAFE_PAGES, UNSAFE_CLICKS, b""], 2, UNSAFE_REFUSED_OUT),
    ("unsafe", "check plan", [UNSAFE_PLAN, b"", b"", b"", b""], 2, UNSAFE_UNSAFE_OUT),
    ("unsafe", "check plan", [UNSAFE_MENDED, b"", b"", b"", b""], 0, UNSAFE_SAFE_OUT),
    ("unsafe", "run --workers=0 plan a b --trace", [UNSAFE_MENDED, b"", UNSAFE_PAGES, UNSAFE_CLICKS, b""], 0, UNSAFE_OUT),
];
