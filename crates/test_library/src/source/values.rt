//! Each call of lists, texts and maps once.

use crate::source::copied::is_copied;
use deno_graph_source::values::{Items, Text, TextMap};
use std::process::Abort;

fn text(rt: &(impl AllocGlobal + Abort), text: &str) -> Text {
    Text::from_str(rt.alloc(), text).expect(rt, "memory")
}

fn items(rt: &(impl AllocGlobal + Abort)) -> Items<Text> {
    let mut items = Items::new(rt.alloc());
    for item in ["a", "b", "c"] {
        items.push(text(rt, item)).expect(rt, "memory");
    }
    items
}

#[test]
fn lists_of_three(rt: HostRuntime) {
    let items = items(&rt);
    assert_three(&rt, &items);
    assert!(rt; is_copied(&rt, &items));
    assert_three(&rt, &Items::from_vec(items.into_vec()));
}

fn assert_three(rt: &impl Abort, items: &Items<Text>) {
    assert!(rt; !items.is_empty());
    assert_eq!(rt; items.len(), 3);
    assert_eq!(rt; items.get(1).map(Text::as_str), Some("b"));
    assert_eq!(rt; items.get(3).map(Text::as_str), None);
    assert_eq!(rt; items.first().map(Text::as_str), Some("a"));
    assert_eq!(rt; items.last().map(Text::as_str), Some("c"));
    assert_eq!(rt; items.iter().count(), 3);
}

#[test]
fn lists_of_none_and_one(rt: HostRuntime) {
    let none = Items::with_capacity(rt.alloc(), 3).expect(&rt, "memory");
    assert!(rt; none.is_empty() && none == Items::new(rt.alloc()));
    let one = Items::from_item(rt.alloc(), text(&rt, "a")).expect(&rt, "memory");
    assert!(rt; none != one);
    assert_eq!(rt; one.as_slice().len(), 1);
    assert_eq!(rt; one.first().map(Text::as_str), Some("a"));
}

#[test]
fn texts(rt: HostRuntime) {
    let none = Text::new(rt.alloc());
    assert!(rt; none.is_empty());
    let text = text(&rt, "größe");
    assert_eq!(rt; text.len(), 7);
    assert_eq!(rt; text.as_str(), "größe");
    assert!(rt; is_copied(&rt, &text));
    assert!(rt; text != none);
    let again = Text::from_string(text.into_string());
    assert_eq!(rt; again.as_str(), "größe");
}

/// Inserts a value, and returns the value that it replaces.
fn insert(
    rt: &(impl AllocGlobal + Abort),
    map: &mut TextMap<Text>,
    key: &str,
    value: &str,
) -> Option<Text> {
    map.insert(text(rt, key), text(rt, value))
        .expect(rt, "memory")
}

/// Returns a map of two keys, one of them inserted twice.
fn map(rt: &(impl AllocGlobal + Abort)) -> TextMap<Text> {
    let mut map = TextMap::new(rt.alloc());
    for (key, value) in [("b", "1"), ("a", "2"), ("b", "3")] {
        drop(insert(rt, &mut map, key, value));
    }
    map
}

#[test]
fn maps_of_two(rt: HostRuntime) {
    let map = map(&rt);
    assert_two(&rt, &map);
    assert!(rt; is_copied(&rt, &map));
    assert_two(&rt, &TextMap::from_map(map.into_map()));
}

fn assert_two(rt: &impl Abort, map: &TextMap<Text>) {
    assert!(rt; !map.is_empty());
    assert_eq!(rt; map.len(), 2);
    assert_eq!(rt; map.get("a").map(Text::as_str), Some("2"));
    assert_eq!(rt; map.get("b").map(Text::as_str), Some("3"));
    assert_eq!(rt; map.get("c").map(Text::as_str), None);
    assert_eq!(rt; map.iter().next().map(|(key, _)| key), Some("a"));
}

#[test]
fn maps_of_none(rt: HostRuntime) {
    let none: TextMap<Text> = TextMap::new(rt.alloc());
    assert!(rt; none.is_empty());
    assert!(rt; map(&rt) != none);
}

#[test]
fn a_value_of_a_map_is_replaced(rt: HostRuntime) {
    let mut map = map(&rt);
    let replaced = insert(&rt, &mut map, "a", "4");
    assert_eq!(rt; replaced.as_ref().map(Text::as_str), Some("2"));
    assert_eq!(rt; map.get("a").map(Text::as_str), Some("4"));
}
