ghost use Rattle.std.specs.Prelude.{◌<◌};

use lists::NoMemory;
use std::alloc::Global;
use std::thread::Threads;
use thread_spread::for_each_apart;

/// So many numbers, each twice its place: first its place, to which that is added in so many threads.
fn doubled_places<R: Threads + Sync>(
    rt: &R,
    alloc: Global,
    count: usize,
    threads: usize,
) -> Result<Vec<u64>, NoMemory>
    requires { 0 < threads }
{
    let mut numbers = Vec::with_capacity(alloc, count)?;
    for i in 0..count {
        numbers.push(i as u64)?;
    }
    for_each_apart(
        rt,
        &mut numbers,
        threads,
        &|i: usize, number: &mut u64| {
            *number = number.wrapping_add(i as u64);
        },
    );
    Ok(numbers)
}

/// Whether each number is twice its place.
fn are_doubled(numbers: &[u64], count: usize) -> bool {
    for (i, number) in numbers.iter().enumerate() {
        if *number != (i as u64).wrapping_mul(2) {
            return false;
        }
    }
    numbers.len() == count
}

#[test]
fn each_place_is_called_once_in_any_number_of_threads(rt: HostRuntime) {
    for count in 0..9usize {
        for threads in 1..6usize {
            let numbers = doubled_places(&rt, rt.alloc(), count, threads).expect(&rt, "memory");
            assert!(rt; are_doubled(&numbers, count));
        }
    }
}
