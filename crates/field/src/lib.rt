//! Bytes as elements of the field of AES, and the entries of its S-box, each
//! worked out at its use.

#![tactic(auto)]

ghost use Rattle.std.specs.Prelude.{◌≡◌};
ghost use Rattle.field.specs.Field.{xtime, product, inverse as inverse_of, Inverse, affine as affine_of, sbox};

// The product with x.
fn double(a: u8) -> u8
    ensures { result ≡ xtime a }
{
    (a << 1) ^ (27 * (a >> 7))
}

// The product of two elements.
pub fn multiply(a: u8, b: u8) -> u8
    ensures { result ≡ product a b }
{
    let mut sum = 0;
    let mut power = a;
    let mut bits = b;
    // Eight turns, and no index: a fold would carry all three values as a triple.
    for _i in 0..8u32 {
        if bits % 2 == 1 {
            sum ^= power;
        }
        power = double(power);
        bits /= 2;
    }
    sum
}

// The inverse of an element, and 0 for 0.
pub fn inverse(a: u8) -> u8
    ensures value { result ≡ inverse_of a }
    ensures inverts { Inverse a result }
{
    let a2 = multiply(a, a);
    let a3 = multiply(a2, a);
    let a6 = multiply(a3, a3);
    let a12 = multiply(a6, a6);
    let a15 = multiply(a12, a3);
    let a30 = multiply(a15, a15);
    let a60 = multiply(a30, a30);
    let a120 = multiply(a60, a60);
    let a240 = multiply(a120, a120);
    multiply(multiply(a240, a12), a2)
}

// The affine map of the S-box.
pub fn affine(b: u8) -> u8
    ensures { result ≡ affine_of b }
{
    b ^ b.rotate_left(1) ^ b.rotate_left(2) ^ b.rotate_left(3) ^ b.rotate_left(4) ^ 0x63
}

// An entry of the S-box.
pub fn substitute(a: u8) -> u8
    ensures { result ≡ sbox a }
{
    affine(inverse(a))
}
