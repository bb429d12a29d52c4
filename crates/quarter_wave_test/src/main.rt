#![tactic(auto)]

// Writes the stored quarter wave, an entry to a line. The file stdout beside src/ was made by tests/expect_quarter_wave.py, which
// shares nothing with the product.
use circle::QuarterWave;
use std::io;

fn write_entry(rt: &impl Print, value: i64) -> io::Result<()> {
    if value < 0 {
        println!(rt; "negative")
    } else {
        println!(rt; "{value}")
    }
}

fn main(rt: HostRuntime) -> io::Result<()> {
    let wave = QuarterWave::new();
    for j in 0..1025 {
        write_entry(&rt, wave.at(j))?;
    }
    Ok(())
}
