// Limits reached exactly, and passed by one. The steps are counted by hand: a start is a step.
//
// The sheets `pending_`, `bindings_` and `cells_` have one form: a function is written to channel 0 that
// calls itself through the channel, with one less, until its argument is 0; then it is called with n.
// Before that call these nodes are started: the root (an application), its function, the write, the
// channel and the function that is written, 5; then, in the body, the application, the read, the channel
// and n, 4: in all 9. A call with 0 starts the choice, its condition and its third part: 3. A call with
// another number starts c nodes, and then there is the call in it. So 9 + n * c + 3 steps are made.
use super::sheets;
use super::trials::ends;
use std::test::Fail;

// (fn x: x x)(fn x: x x). A turn starts an application and its two parts, 3 steps, and leaves the
// application pending. The application of turn k (from 0 on) finds k nodes pending and its parts find
// k + 1, so turns 0 to 1022 pass, 3 * 1023 = 3069 steps; that of turn 1023 takes the last place, step
// 3070, and its first part finds none.
#[test]
fn fuel_is_spent_before_places_are_tested(rt: HostRuntime) -> Result<(), Fail> {
    // each turn of x x makes three steps and leaves one node pending
    ends(&rt, &sheets::self_application(), 0, 3069, (1, 0, 3069))?;
    ends(&rt, &sheets::self_application(), 0, 3070, (1, 0, 3070))?;
    ends(&rt, &sheets::self_application(), 0, 3071, (2, 0, 3070))?;
    ends(&rt, &sheets::self_application(), 0, 1000000, (2, 0, 3070))
}

#[test]
fn fuel_just_enough_and_one_less(rt: HostRuntime) -> Result<(), Fail> {
    // the application, the function, the number, the sum, and its two variables: 6
    ends(&rt, &sheets::double(), 0, 6, (0, 42, 6))?;
    ends(&rt, &sheets::double(), 0, 5, (1, 0, 5))
}

#[test]
fn pending_to_the_limit_and_one_past_it(rt: HostRuntime) -> Result<(), Fail> {
    // n = 510. A call starts the choice, its condition, the application, the read, the channel, the
    // difference, the variable and the 1, so c = 8: 9 + 510 * 8 + 3 = 4092. Pending: the root and the
    // application in its body, then a choice and an application for each call, 2 + 2 * 510 = 1022 before
    // the call with 0, which has its choice and one part of it pending: 1024.
    ends(&rt, &sheets::pending_full(), 0, 4092, (0, 0, 4092))?;
    ends(&rt, &sheets::pending_full(), 0, 4091, (1, 0, 4091))?;
    // With a sum around the first call one node more is pending, and one step more is made before it: 10.
    // After 509 calls 3 + 2 * 509 = 1021 are pending; choice, application and read of the next one take
    // the last three places, and the read's part finds none: 10 + 509 * 8 + 4 = 4086.
    ends(&rt, &sheets::pending_past(), 0, 1000000, (2, 0, 4086))?;
    ends(&rt, &sheets::pending_past(), 0, 4086, (1, 0, 4086))
}

// n = 146. A call starts the choice, its condition and a sum: 3; five sums of six applications of a
// function to 0, 4 steps each: 29; the application, the read, the channel, the difference, the variable
// and the 1: 6. So c = 38: 9 + 146 * 38 + 3 = 5560. Bindings: 1 for the body of the root's function, 147
// calls, 6 more in each of 146 of them: 1 + 147 + 876 = 1024.
// In the other sheet there is a sum around the first call, and then one application more: its three nodes are
// started, and no place is left for the binding: 5560 + 1 + 3 = 5564.
#[test]
fn bindings_to_the_limit_and_one_past_it(rt: HostRuntime) -> Result<(), Fail> {
    // 1 for the write, 147 calls, 6 more in each of 146 of them: 1024
    ends(&rt, &sheets::bindings_full(), 0, 1000000, (0, 0, 5560))?;
    ends(&rt, &sheets::bindings_past(), 0, 1000000, (3, 0, 5564))
}

// The places are tested whether or not fuel is left.
#[test]
fn bindings_past_the_limit_with_the_last_fuel(rt: HostRuntime) -> Result<(), Fail> {
    ends(&rt, &sheets::bindings_past(), 0, 5564, (3, 0, 5564))?;
    ends(&rt, &sheets::bindings_past(), 0, 5563, (1, 0, 5563))
}

// n = 128. A call starts the choice, its condition and a sum: 3; three sums of four reads of new cells, 3
// steps each: 15; and 6 as above. So c = 24: 9 + 128 * 24 + 3 = 3084. Cells: 4 in each of 128 calls: 512.
// In the other sheet there is a sum around the first call, and then one read of a new cell more:
// 3084 + 1 + 3 = 3088.
#[test]
fn cells_to_the_limit_and_one_past_it(rt: HostRuntime) -> Result<(), Fail> {
    // 4 in each of 128 calls: 512
    ends(&rt, &sheets::cells_full(), 0, 1000000, (0, 0, 3084))?;
    ends(&rt, &sheets::cells_past(), 0, 1000000, (4, 0, 3088))
}

#[test]
fn cells_past_the_limit_with_the_last_fuel(rt: HostRuntime) -> Result<(), Fail> {
    ends(&rt, &sheets::cells_past(), 0, 3088, (4, 0, 3088))?;
    ends(&rt, &sheets::cells_past(), 0, 3087, (1, 0, 3087))
}
