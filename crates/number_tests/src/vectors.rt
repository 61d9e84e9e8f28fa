use exact_vectors::{add_product, dot_checked};

#[test]
fn dot_products_in_index_order(rt: HostRuntime) {
    assert_eq!(rt; dot_checked(&[], &[]), Some(0));
    assert_eq!(rt; dot_checked(&[2, -3, 5], &[7, 1, -1]), Some(6));
    assert_eq!(rt; dot_checked(&[i128::MAX], &[1]), Some(i128::MAX));
    assert_eq!(rt; dot_checked(&[i128::MIN], &[-1]), None);
    // A partial sum leaves the range.
    assert_eq!(rt; dot_checked(&[1, i128::MAX, -1], &[1, 1, 1]), None);
}

#[test]
fn a_product_is_added(rt: HostRuntime) {
    assert_eq!(rt; add_product(5, -2, 3), Some(-1));
    assert_eq!(rt; add_product(i128::MAX, 1, 1), None);
}
