//! The formulas by which a step of the disk balancer is paced and ended, exact on whole numbers. They are those of the
//! HDFS Disk Balancer: its bandwidth in MiB per second and its tolerance in percent.
#![tactic(auto)]

ghost use Rattle.std.specs.Prelude.{◌≡◌, ◌+◌, ◌-◌, ◌≤◌, ◌↔◌, IsTrue};
ghost use Rattle.throttle.specs.Formulas.{duration_ms, with_tolerance, Fits, IsCloseEnough};

/// The bytes of one MiB.
const MIB: u128 = 1_048_576;

/// The milliseconds to wait after `bytes` bytes that were copied in `elapsed_ms` milliseconds, at `mib` MiB per second:
/// what these bytes take at that bandwidth, rounded up, less the time that has passed.
pub fn pause_ms(bytes: u64, elapsed_ms: u64, mib: u32) -> u64
    requires { 1 ≤ mib }
    ensures { result ≡ duration_ms bytes mib - elapsed_ms }
{
    let rate = u128::from(mib) * MIB;
    let duration = (u128::from(bytes) * 1000 + (rate - 1)) / rate;
    (duration as u64).saturating_sub(elapsed_ms)
}

/// A number of bytes and `tolerance` percent of it, rounded down.
fn with_tolerance(bytes: u64, tolerance: u8) -> u128
    requires { tolerance ≤ 100 }
    ensures { result ≡ with_tolerance bytes tolerance }
{
    u128::from(bytes) + u128::from(bytes) * u128::from(tolerance) / 100
}

/// Whether a replica of `size` bytes fits into what is left of a step that plans `planned` bytes, after `copied` bytes,
/// within `tolerance` percent.
pub fn fits(size: u64, planned: u64, copied: u64, tolerance: u8) -> bool
    requires { tolerance ≤ 100 }
    ensures { IsTrue result ↔ Fits size planned copied tolerance }
{
    u128::from(size) <= with_tolerance(planned.saturating_sub(copied), tolerance)
}

/// Whether `copied` bytes are close enough to `planned` ones for a step to end, within `tolerance` percent.
pub fn close_enough(planned: u64, copied: u64, tolerance: u8) -> bool
    requires { tolerance ≤ 100 }
    ensures { IsTrue result ↔ IsCloseEnough planned copied tolerance }
{
    with_tolerance(copied, tolerance) > u128::from(planned)
}

#[cfg(test)]
mod tests {
    use super::*;
    use std::test::Fail;

    /// The bytes, the milliseconds that passed, the MiB per second, and the pause.
    #[test]
    fn pauses(rt: HostRuntime) -> Result<(), Fail> {
        let rows = [
            (10_485_760u64, 400u64, 10u32, 600u64),
            (10_485_760, 1_000, 10, 0),
            (10_485_760, 2_000, 10, 0),
            (0, 0, 1, 0),
            (5, 0, 10, 1),
            (1_048_577, 0, 1, 1_001),
            (u64::MAX, 0, 1, 17_592_186_044_416_000),
            (u64::MAX, 0, u32::MAX, 4_096_001),
        ];
        for (bytes, elapsed_ms, mib, pause) in rows.iter() {
            if 1 <= *mib {
                assert_eq!(rt; pause_ms(*bytes, *elapsed_ms, *mib), *pause);
            }
        }
        Ok(())
    }

    /// Of 1,000 planned bytes with a tolerance of 10 percent, and the greatest values.
    #[test]
    fn ends_of_steps(rt: HostRuntime) -> Result<(), Fail> {
        assert_eq!(rt; fits(110, 1000, 900, 10), true);
        assert_eq!(rt; fits(111, 1000, 900, 10), false);
        assert_eq!(rt; fits(1, 1000, 1001, 100), false);
        assert_eq!(rt; fits(0, 1000, 1000, 0), true);
        assert_eq!(rt; fits(u64::MAX, u64::MAX, 0, 0), true);
        assert_eq!(rt; close_enough(1000, 909, 10), false);
        assert_eq!(rt; close_enough(1000, 910, 10), true);
        assert_eq!(rt; close_enough(1000, 1000, 0), false);
        assert_eq!(rt; close_enough(u64::MAX, u64::MAX, 100), true);
        Ok(())
    }
}
