// The additive Fourier transform of Lin, Chung and Han on lanes, the codeword test, and the degree of a
// short word.
//
// The novel basis polynomials are the products of W_j(x) / W_j(b_(j+1)) over the one bits j of i, of
// degree i. 2^m lists of one length, one after the other, hold a transform of 2^m symbols in each
// lane: lane r has symbol r of each list.
#![tactic(auto)]

pub mod blocks;
pub mod degree;
pub mod lanes;
pub mod slices;
pub mod spans;
