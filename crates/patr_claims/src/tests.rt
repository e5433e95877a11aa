use crate::{CounterDesk, Desk, Tickets};
use std::test::*;

#[test]
fn two_seats_take_five_tasks_in_turn(rt: HostRuntime) -> Result<(), Fail> {
    let (desk, mut seats) = CounterDesk::new(rt.alloc(), 5, 2)?;
    let Some(mut second) = seats.pop() else {
        panic!(rt; "no seat")
    };
    let Some(mut first) = seats.pop() else {
        panic!(rt; "one seat")
    };
    let Some(zero) = desk.take(&mut first) else {
        panic!(rt; "no task 0")
    };
    let Some(one) = desk.take(&mut second) else {
        panic!(rt; "no task 1")
    };
    let Some(two) = desk.take(&mut first) else {
        panic!(rt; "no task 2")
    };
    let Some(three) = desk.take(&mut second) else {
        panic!(rt; "no task 3")
    };
    let Some(four) = desk.take(&mut first) else {
        panic!(rt; "no task 4")
    };
    assert!(rt; [zero, one, two, three, four] == [0, 1, 2, 3, 4]);
    assert!(rt; desk.take(&mut second).is_none() && desk.take(&mut first).is_none());
    seats.push(first)?;
    seats.push(second)?;
    let lists = desk.close(seats);
    assert!(rt; lists.len() == 2);
    assert!(rt; lists[0].as_slice() == [0, 2, 4].as_slice());
    assert!(rt; lists[1].as_slice() == [1, 3].as_slice());
    Ok(())
}

#[test]
fn two_seats_draw_three_tickets(rt: HostRuntime) -> Result<(), Fail> {
    let (tickets, mut seats) = Tickets::new(rt.alloc(), 2)?;
    let Some(mut second) = seats.pop() else {
        panic!(rt; "no seat")
    };
    let Some(mut first) = seats.pop() else {
        panic!(rt; "one seat")
    };
    let zero = tickets.draw(&mut first);
    let one = tickets.draw(&mut second);
    let two = tickets.draw(&mut first);
    assert!(rt; [zero, one, two] == [0, 1, 2]);
    seats.push(first)?;
    seats.push(second)?;
    assert!(rt; tickets.close(seats) == 3);
    Ok(())
}
