// Where feeders begin.
ghost use Rattle.pj_workers.specs.Feeds.{FreshFeedsStand};

/// A feed of which nothing was accepted yet stands where its seat's arrivals do, as `feed` asks, where the seat has made nothing.
pub fn fresh_feeds_stand()
    ensures { FreshFeedsStand }
{}
