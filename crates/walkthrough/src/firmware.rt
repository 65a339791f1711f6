// Slips of the firmware, and what the calls say to each.
use super::office::PARTS;
use super::words::tell;
use book::writer::write;
use plan::fault::PlanFault;
use plan::plan::{Plan, ROWS};
use std::io;

pub fn tell_slips(rt: &HostRuntime, plan: Plan) -> io::Result<()> {
    println!(rt; "In the evening new firmware is tried.")?;
    let mut geared = plan;
    tell(
        rt,
        "It sets the ratio of the speeds to 2/3.",
        geared.set_ratio(2, 3),
    )?;
    tell(rt, "It adds task after task to the plan.", overfill(plan))?;
    tell(
        rt,
        "It writes the plan into a buffer of 511 bytes.",
        write(&plan, &mut [0; 511]),
    )
}

fn overfill(mut plan: Plan) -> Result<(), PlanFault> {
    for _ in 0..=ROWS {
        plan.add(PARTS[0].draft)?;
    }
    Ok(())
}
