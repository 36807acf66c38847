//! Working off the trials of a desk.

ghost use Rattle.std.specs.Prelude.{◌≡◌, MatchResult};
ghost use Rattle.desk.specs.Working.{Stops, WorksOff};
ghost use Rattle.trials.specs.Series.{planned};

use crate::desks::Desk;
use crate::jobs::Planned;
use crate::laws::{desks_are_within_limits, seats_claim_in_order};
use crate::seats::DeskSeat;
use base::NoMemory;
use bumpalo::Bump;
use std::alloc::Global;
use trials::Series;

/// Claims numbers until there are no more, makes the trial of each, and posts its result. It answers how many it
/// posted, which are all that it claimed. It waits for nobody.
///
/// Where it is refused, what was posted stands, and the one number that it was at is claimed and not posted.
pub fn work<D: Planned>(desk: &Desk<'_, D>, seat: &mut DeskSeat<D>) -> Result<u32, NoMemory>
    requires { seat.old.desk ≡ desk.now.id }
    ensures { MatchResult result (WorksOff seat.old seat.new) (λ _. Stops seat.old seat.new) }
{
    let arena = Bump::new(desk.alloc);
    let mut series = Series::new(desk.alloc, &arena, &desk.job.scenario, &desk.job.setup);
    work_off(desk, seat, &mut series)
}

/// Works with the trials of the desk's job.
fn work_off<D: Planned>(
    desk: &Desk<'_, D>,
    seat: &mut DeskSeat<D>,
    series: &mut Series<'_, '_, Global>,
) -> Result<u32, NoMemory>
    requires seat { seat.old.desk ≡ desk.now.id }
    requires plan { planned series.old ≡ D.plan }
    ensures { MatchResult result (WorksOff seat.old seat.new) (λ _. Stops seat.old seat.new) }
{
    desks_are_within_limits(desk);
    let mut count = 0u32;
    while let Some(number) = desk.claim(seat) {
        seats_claim_in_order(seat);
        let Ok(made) = series.result(number) else {
            return Err(NoMemory);
        };
        if desk.post(seat, number, made).is_err() {
            return Err(NoMemory);
        }
        count += 1;
    }
    Ok(count)
}
