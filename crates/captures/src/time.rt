ghost use Rattle.std.specs.Prelude.{◌≡◌, ◌<◌, ◌^◌};
ghost use Rattle.captures.specs.Times.{nanoseconds, nanoseconds_of_unit, units_of_resolution, shift_of, stamp_time, moved};

/// The unit of the fraction of a second in pcap.
#[derive(Clone, Copy, Debug, PartialEq, Eq)]
pub enum Unit {
    /// A millionth of a second.
    Micro,
    /// A thousand-millionth of a second.
    Nano,
}

/// The nanoseconds in a second.
const NANOSECONDS: u64 = 1_000_000_000;

/// The nanoseconds of so many seconds and units.
pub(crate) fn nanoseconds(unit: Unit, seconds: u32, fraction: u32) -> u64
    ensures { result ≡ nanoseconds unit seconds fraction }
{
    let of_unit = match unit {
        Unit::Micro => 1_000,
        Unit::Nano => 1,
    };
    u64::from(seconds) * NANOSECONDS + u64::from(fraction) * of_unit
}

/// How many units of time a second has, by the octet of the option if_tsresol: a power of 10, or of 2 if the octet is
/// 128 or more; None if that is no number below 2^64.
pub(crate) fn units_of_resolution(resolution: u8) -> Option<u64>
    ensures { result ≡ units_of_resolution resolution }
{
    if resolution < 20 {
        Some(10u64.pow(u32::from(resolution)))
    } else if resolution >= 128 && resolution < 192 {
        Some(1 << (resolution - 128))
    } else {
        None
    }
}

/// How far each time of an interface is moved.
#[derive(Clone, Copy, Debug, Default, PartialEq, Eq)]
pub struct Shift {
    /// The seconds.
    pub seconds: u64,
    /// Whether they are taken away; else they are added.
    pub is_earlier: bool,
}

/// The shift that the number of the option if_tsoffset stands for, in two's complement.
pub(crate) fn shift_of(number: u64) -> Shift
    ensures { result ≡ shift_of number }
{
    if number < 1 << 63 {
        Shift {
            seconds: number,
            is_earlier: false,
        }
    } else {
        Shift {
            seconds: u64::MAX - number + 1,
            is_earlier: true,
        }
    }
}

/// A time in nanoseconds that is moved; None if that is before the beginning of 1970.
fn moved(shift: Shift, time: u128) -> Option<u128>
    requires { time < 2 ^ 94 }
    ensures { result ≡ moved shift time }
{
    let distance = u128::from(shift.seconds) * u128::from(NANOSECONDS);
    if !shift.is_earlier {
        Some(time + distance)
    } else if time < distance {
        None
    } else {
        Some(time - distance)
    }
}

/// The nanoseconds of so many units of time, once they are moved; None if they are 2^64 or more, or before the beginning
/// of 1970, or if a second has no units.
pub(crate) fn stamp_time(units: u64, shift: Shift, stamp: u64) -> Option<u64>
    ensures { result ≡ stamp_time units shift stamp }
{
    if units == 0 {
        return None;
    }
    let time = u128::from(stamp) * u128::from(NANOSECONDS) / u128::from(units);
    match moved(shift, time) {
        Some(moved) if moved < 1 << 64 => Some(moved as u64),
        _ => None,
    }
}
