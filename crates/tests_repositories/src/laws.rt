//! The laws of items and of configurations, each called.
use oai_config::{fault_law, shape_law};
use oai_http::path_law;
use oai_item::{encoding_law, order_law, selection_law, set_law, spelling_law};

#[test]
fn laws_of_items() {
    set_law();
    order_law();
    selection_law();
}

#[test]
fn law_of_items_as_bytes() {
    encoding_law();
}

#[test]
fn law_of_items_in_place() {
    spelling_law();
}

#[test]
fn laws_of_configurations() {
    shape_law();
    fault_law();
    path_law();
}
