// The search for a Free rectangle that takes a request: bucket by bucket, from the request's upward.
#![tactic(auto)]

ghost use Rattle.std.specs.Prelude.{◌≡◌};
ghost use Rattle.buckets.specs.FreeLists.{lists};
ghost use Rattle.choices.specs.Choices.{searched, Searchable};
ghost use Rattle.search.specs.Search.{search_up, gone_on, find_suitable};

use buckets::Lengths;
use choices::Search;
use fits::Query;
use geometry::{Bucket, Extent, Setup};

// Goes on in the bucket above, unless the search ended in this one.
#[tactic(auto, unfolding(crate::specs::Search::gone_on))]
fn search_on(
    words: &[u32],
    small: &mut [u32],
    medium: &mut [u32],
    large: &mut [u32],
    s: Search,
    bucket: Bucket,
    q: Query,
) -> Search
    requires { Searchable words.now (lists s.lengths small.old medium.old large.old) }
    ensures { searched result.chosen (lists result.lengths small.new medium.new large.new)
        ≡ gone_on words.now q bucket (searched s.chosen (lists s.lengths small.old medium.old large.old)) }
{
    if choices::is_settled(s.chosen, bucket) {
        return s;
    }
    choices::search_one(
        words,
        small,
        medium,
        large,
        s.lengths,
        choices::higher(bucket),
        q,
    )
}

// Searches from a bucket upward. The first bucket with a candidate decides.
#[tactic(auto, using(crate::proofs::SearchLaws::up_thrice))]
fn search_from(
    words: &[u32],
    small: &mut [u32],
    medium: &mut [u32],
    large: &mut [u32],
    lengths: Lengths,
    bucket: Bucket,
    q: Query,
) -> Search
    requires { Searchable words.now (lists lengths small.old medium.old large.old) }
    ensures { searched result.chosen (lists result.lengths small.new medium.new large.new)
        ≡ search_up words.now q 2 bucket (lists lengths small.old medium.old large.old) }
{
    let s = choices::search_one(words, small, medium, large, lengths, bucket, q);
    let t = search_on(words, small, medium, large, s, bucket, q);
    search_on(words, small, medium, large, t, choices::higher(bucket), q)
}

// The Free rectangle for a request, by the thresholds: which slot, and where its entry stands.
#[tactic(auto, unfolding(crate::specs::Search::find_suitable))]
pub fn find_suitable_rect(
    words: &[u32],
    small: &mut [u32],
    medium: &mut [u32],
    large: &mut [u32],
    lengths: Lengths,
    setup: Setup,
    request: Extent,
) -> Search
    requires { Searchable words.now (lists lengths small.old medium.old large.old) }
    ensures { searched result.chosen (lists result.lengths small.new medium.new large.new)
        ≡ find_suitable words.now setup request (lists lengths small.old medium.old large.old) }
{
    let ideal = geometry::free_list_for_size(
        setup.small,
        setup.large,
        request.width,
        request.height,
    );
    let q = Query {
        width: request.width,
        height: request.height,
        worst: choices::is_large(ideal),
    };
    search_from(words, small, medium, large, lengths, ideal, q)
}
