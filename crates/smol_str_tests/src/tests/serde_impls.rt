//! A type that derives serde's traits and has values.
use serde::{Deserialize, Serialize};
use serde_json::Error;
use smol_str::{Place, SmolStr};
use test_support::*;

/// A row of a table, in which some cells are empty.
#[derive(Drop, Serialize, Deserialize)]
struct Row {
    name: SmolStr,
    cells: Vec<Option<SmolStr>>,
}

const JSON: &str =
    r#"{"name":"é\n","cells":["a",null,"a cell of more bytes than any buffer has"]}"#;

#[test]
fn derived(rt: HostRuntime) -> Result<(), Fail> {
    let test = Test::begin(rt);
    match read_row(test.alloc, JSON) {
        Ok(row) => check_row(&test, &row),
        Err(error) => test.fail(&error),
    }
    for json in NOT_READ {
        let is_refused = read_row(test.alloc, json).is_err_and(|error| !error.is_memory());
        holds(&test, is_refused, &json);
    }
    test.end()
}

fn read_row(alloc: Global, json: &str) -> Result<Row, Error> {
    serde_json::from_str(alloc, json)
}

fn check_row(test: &Test, row: &Row) {
    same_value(test, &row.name, "é\n", Place::Inline, &"name");
    let last = row.cells.last().and_then(|cell| cell.as_ref());
    let place = last.map(|cell| cell.place());
    holds(test, place == Some(Place::Heap), &"cells");
    let json = ok(test, serde_json::to_string(test.alloc, row));
    same(test, &json.as_str(), &JSON, &"written");
}

/// Rows of which a field is not a text.
static NOT_READ: [&str; 4] = table! {
    r#"{"name":1,"cells":[]}"#;
    r#"{"name":"a","cells":[{}]}"#;
    r#"{"name":"a","cells":["\ud800"]}"#;
    r#"{"cells":[]}"#;
};
