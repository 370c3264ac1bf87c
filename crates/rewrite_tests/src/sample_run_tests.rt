//! The smallest samples.
use columns_base::Error;
use rewrite_whole::{NoView, Report};
use sample_run::{Sampled, sample};
use std::test::Fail;

type TestResult = Result<(), Fail>;

const fn report(groups: u64, rows: u64, data_pages: u64) -> Report {
    Report {
        groups,
        rows,
        data_pages,
    }
}

fn tells(sampled: Result<Sampled, Error>, report: Report, count: u64, sum: i128) -> bool {
    match sampled {
        Ok(sampled) => {
            let is_same = sampled.report == report;
            is_same && sampled.items.count == count && sampled.items.sum == sum
        }
        Err(_) => false,
    }
}

#[test]
fn one_row(rt: HostRuntime) -> TestResult {
    let mut view = NoView;
    assert!(rt; tells(sample(rt.alloc(), 1, &mut view), report(1, 1, 3), 0, 0));
    Ok(())
}

#[test]
fn ten_rows(rt: HostRuntime) -> TestResult {
    let mut view = NoView;
    assert!(rt; tells(sample(rt.alloc(), 10, &mut view), report(1, 10, 3), 10, 50));
    Ok(())
}
