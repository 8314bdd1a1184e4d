use super::play::{play, refused};
use machine::{Binding, Cell, Frame, Stage, Value, WorkAreas};
use number::Millimetres;
use station::Station;
use std::process::Abort;
use std::test::*;

// An opening over so many places, at most five: the number of its refusal, if any.
fn opened(places: usize) -> Result<Option<u8>, Fail> {
    let mut channels = [Millimetres { count: 9 }; 5];
    play(&mut channels[0..places.min(5)], |_| Ok(()))
}

// Three sites, so three places.
#[test]
fn opening_asks_for_a_place_for_each_site(rt: HostRuntime) -> Result<(), Fail> {
    assert_eq!(rt; opened(0)?, Some(41));
    assert_eq!(rt; opened(2)?, Some(41));
    assert_eq!(rt; opened(3)?, None);
    assert_eq!(rt; opened(5)?, None);
    Ok(())
}

// Four runs, of which the last has one place too few for cells.
fn refuse(
    rt: &impl Abort,
    station: &mut Station<Millimetres>,
    areas: &mut WorkAreas<Millimetres>,
) -> Result<(), Fail> {
    assert_eq!(rt; refused(station.run(1, 2, 100, areas)), Some(42));
    assert_eq!(rt; refused(station.run(2, 0, 100, areas)), Some(43));
    assert_eq!(rt; refused(station.run(1, 0, 0, areas)), Some(44));
    let few = areas.held.len().min(543);
    let mut short = WorkAreas {
        pending: &mut *areas.pending,
        bound: &mut *areas.bound,
        held: &mut areas.held[0..few],
    };
    assert_eq!(rt; refused(station.run(1, 0, 100, &mut short)), Some(45));
    Ok(())
}

// Every place has its mark still.
fn marked(rt: &impl Abort, areas: &WorkAreas<Millimetres>) -> Result<(), Fail> {
    for frame in areas.pending.iter() {
        assert_eq!(rt; frame.node, 77);
    }
    for binding in areas.bound.iter() {
        assert_eq!(rt; binding.function, 77);
    }
    for cell in areas.held.iter() {
        assert_eq!(rt; cell.site, 77);
    }
    Ok(())
}

// Runs that are refused, by 42 to 45, over areas with a mark in each place.
fn refused_runs(rt: &impl Abort, station: &mut Station<Millimetres>) -> Result<(), Fail> {
    let value: Value<Millimetres> = Value::Reference(77);
    let stage: Stage<Millimetres> = Stage::Passes;
    let mut pending = [Frame {
        node: 77,
        scope: 77,
        stage,
    }; 1024];
    let mut bound = [Binding {
        function: 77,
        value,
        outer: 77,
    }; 1024];
    let mut held = [Cell { site: 77, value }; 544];
    let mut areas = WorkAreas {
        pending: &mut pending,
        bound: &mut bound,
        held: &mut held,
    };
    refuse(rt, station, &mut areas)?;
    marked(rt, &areas)
}

#[test]
fn refused_runs_leave_the_areas_as_they_were(rt: HostRuntime) -> Result<(), Fail> {
    let mut channels = [Millimetres { count: 9 }; 3];
    assert_eq!(rt;
        play(&mut channels, |station| refused_runs(&rt, station))?,
        None
    );
    Ok(())
}
