// Routing and single passes on slices and numbers alone, for replay and, exported by harness_c, for the oracle's bench
// and comparison: an answer is one u64 (specs/Word.antt of harness_calls). No part of the public calls.
#![tactic(auto)]

ghost use Rattle.flow.specs.Route.{Routed};
ghost use Rattle.fluvial_erosion.specs.Incise.{InciseMade};
ghost use Rattle.fluvial_carve.specs.Carve.{CarveMade};
ghost use Rattle.thermal_erosion.specs.SlidePass.{SlideMade};
ghost use Rattle.thermal_erosion.specs.OverPass.{SlideOver};
ghost use Rattle.harness_calls.specs.Word.{Exported};

use fluvial_erosion::FluvialParams;
use generators::Progress;
use grid::Sides;
use harness_calls::word;
use thermal_erosion::ThermalParams;

// `route`: the network of a map.
pub fn harness_route(
    w: usize,
    h: usize,
    hmap: &[f32],
    water_level: f32,
    order: &mut [u32],
    recv: &mut [u32],
    spill: &mut [f32],
    area: &mut [f32],
    queue: &mut [u32],
    status: &mut [u8],
) -> u64
    ensures { Exported (λ a. Routed w h hmap.now water_level
        (record {
          order = order.old;
          recv = recv.old;
          spill = spill.old;
          area = area.old;
          queue = queue.old;
          status = status.old;
        }) a
        (record {
          order = order.new;
          recv = recv.new;
          spill = spill.new;
          area = area.new;
          queue = queue.new;
          status = status.new;
        })) result }
{
    let size = Sides { w, h };
    word(flow::route(
        size,
        hmap,
        water_level,
        order,
        recv,
        spill,
        area,
        queue,
        status,
    ))
}

// `incise`: an incision along lent receivers and a lent list.
pub fn harness_incise(
    w: usize,
    h: usize,
    hmap: &[f32],
    k: f32,
    uplift: f32,
    water_level: f32,
    recv: &[u32],
    order: &[u32],
    out: &mut [f32],
    area: &mut [f32],
) -> u64
    ensures { Exported (λ a. InciseMade w h hmap.now
        (record { k = k; uplift = uplift; water_level = water_level }) recv.now order.now
        (record { out = out.old; area = area.old }) a
        (record { out = out.new; area = area.new })) result }
{
    let size = Sides { w, h };
    let params = FluvialParams {
        k,
        uplift,
        water_level,
    };
    word(fluvial_erosion::incise(size, hmap, params, recv, order, out, area))
}

// Routes a map and incises it along the network found: the heights incised in `out`. It refuses what `route` refuses;
// k, uplift and a result that is not finite are not tested. In the bench its time less that of `route` is the time of
// the incision alone.
pub fn harness_carve(
    w: usize,
    h: usize,
    hmap: &[f32],
    k: f32,
    uplift: f32,
    water_level: f32,
    order: &mut [u32],
    recv: &mut [u32],
    out: &mut [f32],
    area: &mut [f32],
    queue: &mut [u32],
    status: &mut [u8],
) -> u64
    ensures { Exported (λ a. CarveMade w h hmap.now
        (record { k = k; uplift = uplift; water_level = water_level })
        (record {
          order = order.old;
          recv = recv.old;
          spill = out.old;
          area = area.old;
          queue = queue.old;
          status = status.old;
        }) a
        (record {
          order = order.new;
          recv = recv.new;
          spill = out.new;
          area = area.new;
          queue = queue.new;
          status = status.new;
        })) result }
{
    let size = Sides { w, h };
    let params = FluvialParams {
        k,
        uplift,
        water_level,
    };
    word(fluvial_carve::carve(size, hmap, params, order, recv, out, area, queue, status))
}

// `slide_pass`: a talus pass; the record is read and written in place.
pub fn harness_slide_pass(
    w: usize,
    h: usize,
    hmap: &[f32],
    out: &mut [f32],
    threshold: f32,
    strength: f32,
    water_level: f32,
    from: f32,
    to: f32,
    last: &mut f32,
    asked: &mut u32,
    stopped: &mut bool,
    stop: u32,
) -> u64
    ensures { Exported (λ a. SlideMade w h hmap.now
        (record { threshold = threshold; strength = strength; water_level = water_level })
        (record {
          from = from;
          to = to;
          marks = record { last = last.old; asked = asked.old; stopped = stopped.old };
          stop = stop;
        })
        out.old
        (record {
          answer = a;
          progress = record { last = last.new; asked = asked.new; stopped = stopped.new };
        })
        out.new) result }
{
    let size = Sides { w, h };
    let params = ThermalParams {
        threshold,
        strength,
        water_level,
    };
    let before = Progress {
        last: *last,
        asked: *asked,
        stopped: *stopped,
    };
    let slid = thermal_erosion::slide_pass(size, hmap, out, params, from, to, before, stop);
    let after = slid.progress;
    *last = after.last;
    *asked = after.asked;
    *stopped = after.stopped;
    let answer = slid.answer;
    word(answer)
}

// `slide_pass_over`: a talus pass over eight thresholds; the record is read and written in place.
pub fn harness_slide_pass_over(
    w: usize,
    h: usize,
    hmap: &[f32],
    out: &mut [f32],
    thresholds: &[f32; 8],
    strength: f32,
    water_level: f32,
    from: f32,
    to: f32,
    last: &mut f32,
    asked: &mut u32,
    stopped: &mut bool,
    stop: u32,
) -> u64
    ensures { Exported (λ a. SlideOver w h hmap.now thresholds.now strength water_level
        (record {
          from = from;
          to = to;
          marks = record { last = last.old; asked = asked.old; stopped = stopped.old };
          stop = stop;
        })
        out.old
        (record {
          answer = a;
          progress = record { last = last.new; asked = asked.new; stopped = stopped.new };
        })
        out.new) result }
{
    let size = Sides { w, h };
    let before = Progress {
        last: *last,
        asked: *asked,
        stopped: *stopped,
    };
    let eight = *thresholds;
    let slid = thermal_erosion::slide_pass_over(
        size,
        hmap,
        out,
        eight,
        strength,
        water_level,
        from,
        to,
        before,
        stop,
    );
    let after = slid.progress;
    *last = after.last;
    *asked = after.asked;
    *stopped = after.stopped;
    let answer = slid.answer;
    word(answer)
}
