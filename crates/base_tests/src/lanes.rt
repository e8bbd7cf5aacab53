use gf_field::Gf;
use ida_lanes::{mul_lanes, table_mul};
use std::simd::prelude::*;

fn is_product(a: u8, b: u8, product: u8) -> bool {
    let lanes = mul_lanes(Gf(a), u8x32::splat(b)).to_array();
    table_mul(Gf(a), Gf(b)) == Gf(product) && lanes == [product; 32]
}

#[test]
fn products_by_tables_and_by_lanes(rt: HostRuntime) {
    let are_products = [
        is_product(0x02, 0x80, 0x1d),
        is_product(0x80, 0x80, 0x13),
        is_product(0x00, 0x57, 0x00),
    ];
    assert_eq!(rt; are_products, [true; 3]);
}
