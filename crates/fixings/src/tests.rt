use crate::OpenFixing;
use terms::Refusal;

/// Runs a whole fixing. Answers the final price.
fn fixed(family: u8, expected: usize, samples: &[u32], close: u32) -> Result<u32, Refusal> {
    let mut fixing = OpenFixing::begin(family, expected)?;
    for price in samples {
        if let Err(refusal) = fixing.sample(*price) {
            fixing.abandon();
            return Err(refusal);
        }
    }
    let closed = fixing.close(close).map_err(|(refusal, left)| {
        left.abandon();
        refusal
    })?;
    let (_, price) = closed.spend();
    Ok(price)
}

/// The number by which a whole fixing is refused.
fn refused(family: u8, expected: usize, samples: &[u32], close: u32) -> Option<u8> {
    let refusal = fixed(family, expected, samples, close).err()?;
    Some(refusal.reason.number())
}

#[test]
fn figures_come_out(rt: HostRuntime) {
    assert_eq!(rt;
        fixed(0, 2, &[2_012_345, 2_013_010], 2_012_550),
        Ok(2_012_600)
    );
    assert_eq!(rt; fixed(2, 1, &[81_234], 81_235), Ok(81_235));
}

#[test]
fn numbers_out_of_range_are_refused(rt: HostRuntime) {
    assert_eq!(rt; refused(3, 1, &[81_234], 81_235), Some(4));
    assert_eq!(rt; refused(0, 201, &[81_234], 81_235), Some(4));
    assert_eq!(rt; refused(0, 1, &[0], 81_235), Some(4));
    assert_eq!(rt; refused(0, 1, &[81_234], 10_000_001), Some(4));
}

#[test]
fn one_sample_too_many_or_too_few_is_refused(rt: HostRuntime) {
    assert_eq!(rt; refused(1, 1, &[81_234, 81_235], 81_235), Some(8));
    assert_eq!(rt; refused(1, 2, &[81_234], 81_235), Some(8));
}
