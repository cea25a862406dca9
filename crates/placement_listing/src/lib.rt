// The listing of what the service answers, as it is held. The definition is specs/Listing.antt.
#![tactic(auto)]

ghost use Rattle.std.specs.Prelude.{◌≤◌, IfOk, length, take};
ghost use Rattle.exact.specs.Planned.{Planned};
ghost use Rattle.listing.specs.Appended.{Listed};
ghost use Rattle.listing.specs.Longest.{longest};
ghost use Rattle.placement_listing.specs.Listing.{of_result};

use format::Refusal;
use placement::Placement;

// The listing of a placement or a refusal, to the front of `out`, and its length.
pub fn listing_of(p: Result<Placement, Refusal>, out: &mut [u8]) -> usize
    requires planned { IfOk p (λ q. Planned q.block (take q.block.words q.times)) }
    requires longest_in_bounds { longest ≤ length out.old }
    ensures { Listed (of_result p) out.old result out.new }
{
    match p {
        Ok(q) => {
            let n = q.block.words;
            listing::plan(q.block, &q.times[..n], q.gap, q.passes, out)
        }
        Err(r) => listing::refused(u32::from(r), out),
    }
}
