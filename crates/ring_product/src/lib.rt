// The product of the ring over bytes, for C: no call of crate `polka` is a product alone, and the benchmark times one.
#![tactic(auto)]

ghost use Rattle.std.specs.Prelude.{◌≡◌};
ghost use Rattle.ring_product.specs.Product.{product_number, product_out};

use encoding::ELEMENT_LENGTH;

// Writes the product of two elements of 2,048 bytes each: words of two bytes, the low one first. Words are taken modulo q.
// It answers 0; where one of the three has another length it answers 1 and leaves `out` as it came.
#[unsafe(no_mangle)]
pub extern "C" fn ring_product(a: &[u8], b: &[u8], out: &mut [u8]) -> u32
    ensures value { result ≡ product_number a.now b.now out.old }
    ensures out_after { out.new ≡ product_out a.now b.now out.old }
{
    let fits = (a.len() == ELEMENT_LENGTH)
        & (b.len() == ELEMENT_LENGTH)
        & (out.len() == ELEMENT_LENGTH);
    if !fits {
        return 1;
    }
    let x = encoding::decode_element(a);
    let y = encoding::decode_element(b);
    encoding::encode_element(ring::product(x, y), out);
    0
}
