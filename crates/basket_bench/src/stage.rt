//! The times of a stage.
use std::time::Duration;

/// Prints the name of a stage, its workers, and the least and the median of its times.
pub fn print_stage(
    rt: &impl Print,
    name: &str,
    workers: u32,
    mut times: Vec<Duration>,
) -> anyhow::Result<()> {
    times.sort_unstable();
    if let (Some(least), Some(median)) = (times.first(), times.get(times.len() / 2)) {
        println!(rt;
            "{name} by {workers}: least {} us, median {} us",
            least.as_micros(),
            median.as_micros()
        )?;
    }
    Ok(())
}
