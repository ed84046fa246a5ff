// What the program answers at the edges of what it reads.
use crate::fault::TravelFault;
use crate::survey::survey;
use chart::{Cause, ChartFault};
use std::test::Fail;

// The number of zeros and then LAST: a file that ends well.
fn zeros_then_last(rt: &HostRuntime, zeros: usize) -> Result<Vec<u8>, Fail> {
    let mut file = vec![in rt.alloc(); 0u8; zeros]?;
    file.extend_from_slice(b"LAST")?;
    Ok(file)
}

#[test]
fn a_file_of_8192_bytes_is_read(rt: HostRuntime) -> Result<(), Fail> {
    let file = zeros_then_last(&rt, 8188)?;
    let outside = ChartFault::of_chart(Cause::OutsideLimits);
    assert_eq!(rt; survey(rt.alloc(), &file), Err(TravelFault::Chart(outside)));
    Ok(())
}

#[test]
fn a_longer_file_is_refused_first(rt: HostRuntime) -> Result<(), Fail> {
    let file = zeros_then_last(&rt, 8189)?;
    assert_eq!(rt; survey(rt.alloc(), &file), Err(TravelFault::TooLong));
    Ok(())
}

#[test]
fn what_is_no_chart_is_refused(rt: HostRuntime) {
    let no_chart = ChartFault::of_chart(Cause::NotAChart);
    assert_eq!(rt;
        survey(rt.alloc(), b"a short note"),
        Err(TravelFault::Chart(no_chart))
    );
}
