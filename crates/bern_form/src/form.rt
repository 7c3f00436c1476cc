/// A form of degree 1: the sum of `c[k] * x^k * y^(1-k)`, where x stands for the time t and y for 1 - t.
#[derive(Clone, Copy)]
pub struct Form1 {
    pub c: [i128; 2],
}

/// A form of degree 2: the sum of `c[k] * x^k * y^(2-k)`.
#[derive(Clone, Copy)]
pub struct Form2 {
    pub c: [i128; 3],
}

/// A form of degree 4: the sum of `c[k] * x^k * y^(4-k)`.
#[derive(Clone, Copy)]
pub struct Form4 {
    pub c: [i128; 5],
}
