// The calls of harness by the C convention, as its archive exports them: a slice passes as pointer and length.
#![tactic(auto)]

ghost use Rattle.flow.specs.Route.{Routed};
ghost use Rattle.fluvial_erosion.specs.Incise.{InciseMade};
ghost use Rattle.fluvial_carve.specs.Carve.{CarveMade};
ghost use Rattle.thermal_erosion.specs.SlidePass.{SlideMade};
ghost use Rattle.thermal_erosion.specs.OverPass.{SlideOver};
ghost use Rattle.harness_calls.specs.Word.{Exported};

// `route`: the network of a map.
#[unsafe(no_mangle)]
pub extern "C" fn harness_route(
    w: usize,
    h: usize,
    hmap: &[f32],
    water_level: f32,
    order: &mut [u32],
    recv: &mut [u32],
    spill: &mut [f32],
    area: &mut [f32],
    queue: &mut [u32],
    status: &mut [u8],
) -> u64
    ensures { Exported (λ a. Routed w h hmap.now water_level
        (record {
          order = order.old;
          recv = recv.old;
          spill = spill.old;
          area = area.old;
          queue = queue.old;
          status = status.old;
        }) a
        (record {
          order = order.new;
          recv = recv.new;
          spill = spill.new;
          area = area.new;
          queue = queue.new;
          status = status.new;
        })) result }
{
    harness::harness_route(
        w,
        h,
        hmap,
        water_level,
        order,
        recv,
        spill,
        area,
        queue,
        status,
    )
}

// `incise`: an incision along lent receivers and a lent list.
#[unsafe(no_mangle)]
pub extern "C" fn harness_incise(
    w: usize,
    h: usize,
    hmap: &[f32],
    k: f32,
    uplift: f32,
    water_level: f32,
    recv: &[u32],
    order: &[u32],
    out: &mut [f32],
    area: &mut [f32],
) -> u64
    ensures { Exported (λ a. InciseMade w h hmap.now
        (record { k = k; uplift = uplift; water_level = water_level }) recv.now order.now
        (record { out = out.old; area = area.old }) a
        (record { out = out.new; area = area.new })) result }
{
    harness::harness_incise(w, h, hmap, k, uplift, water_level, recv, order, out, area)
}

// Routes a map and incises it along the network found: the heights incised in `out`. It refuses what `route` refuses;
// k, uplift and a result that is not finite are not tested. In the bench its time less that of `route` is the time of
// the incision alone.
#[unsafe(no_mangle)]
pub extern "C" fn harness_carve(
    w: usize,
    h: usize,
    hmap: &[f32],
    k: f32,
    uplift: f32,
    water_level: f32,
    order: &mut [u32],
    recv: &mut [u32],
    out: &mut [f32],
    area: &mut [f32],
    queue: &mut [u32],
    status: &mut [u8],
) -> u64
    ensures { Exported (λ a. CarveMade w h hmap.now
        (record { k = k; uplift = uplift; water_level = water_level })
        (record {
          order = order.old;
          recv = recv.old;
          spill = out.old;
          area = area.old;
          queue = queue.old;
          status = status.old;
        }) a
        (record {
          order = order.new;
          recv = recv.new;
          spill = out.new;
          area = area.new;
          queue = queue.new;
          status = status.new;
        })) result }
{
    harness::harness_carve(
        w,
        h,
        hmap,
        k,
        uplift,
        water_level,
        order,
        recv,
        out,
        area,
        queue,
        status,
    )
}

// `slide_pass`: a talus pass; the record is read and written in place.
#[unsafe(no_mangle)]
pub extern "C" fn harness_slide_pass(
    w: usize,
    h: usize,
    hmap: &[f32],
    out: &mut [f32],
    threshold: f32,
    strength: f32,
    water_level: f32,
    from: f32,
    to: f32,
    last: &mut f32,
    asked: &mut u32,
    stopped: &mut bool,
    stop: u32,
) -> u64
    ensures { Exported (λ a. SlideMade w h hmap.now
        (record { threshold = threshold; strength = strength; water_level = water_level })
        (record {
          from = from;
          to = to;
          marks = record { last = last.old; asked = asked.old; stopped = stopped.old };
          stop = stop;
        })
        out.old
        (record {
          answer = a;
          progress = record { last = last.new; asked = asked.new; stopped = stopped.new };
        })
        out.new) result }
{
    harness::harness_slide_pass(
        w,
        h,
        hmap,
        out,
        threshold,
        strength,
        water_level,
        from,
        to,
        last,
        asked,
        stopped,
        stop,
    )
}

// `slide_pass_over`: a talus pass over eight thresholds; the record is read and written in place.
#[unsafe(no_mangle)]
pub extern "C" fn harness_slide_pass_over(
    w: usize,
    h: usize,
    hmap: &[f32],
    out: &mut [f32],
    thresholds: &[f32; 8],
    strength: f32,
    water_level: f32,
    from: f32,
    to: f32,
    last: &mut f32,
    asked: &mut u32,
    stopped: &mut bool,
    stop: u32,
) -> u64
    ensures { Exported (λ a. SlideOver w h hmap.now thresholds.now strength water_level
        (record {
          from = from;
          to = to;
          marks = record { last = last.old; asked = asked.old; stopped = stopped.old };
          stop = stop;
        })
        out.old
        (record {
          answer = a;
          progress = record { last = last.new; asked = asked.new; stopped = stopped.new };
        })
        out.new) result }
{
    harness::harness_slide_pass_over(
        w,
        h,
        hmap,
        out,
        thresholds,
        strength,
        water_level,
        from,
        to,
        last,
        asked,
        stopped,
        stop,
    )
}
