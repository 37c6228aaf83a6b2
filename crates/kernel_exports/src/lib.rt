//! The kernels as C functions, for the benchmark. A row is passed as a pointer and a length. The
//! rows of one call have one length; nothing checks that a caller in C sees to it.
//!
//! Proved: each function is that of the kernel's definition for two rows of one length.
#![tactic(auto)]

ghost use Rattle.std.specs.Prelude.{◌≡◌, length};
ghost use Rattle.clause_kernel.specs.Kernels.{hits, met, within, same_rows, joined, common, remaining};

/// Tells whether some position has a bit set in both rows.
#[unsafe(no_mangle)]
pub extern "C" fn clause_kernel_hits(a: &[u64], b: &[u64]) -> bool
    requires { length a.now ≡ length b.now }
    ensures { result ≡ hits a.now b.now }
{
    clause_kernel::hits(a, b)
}

/// Tells whether some position of `a` has a bit set, with all its set bits set in `b`.
#[unsafe(no_mangle)]
pub extern "C" fn clause_kernel_met(a: &[u64], b: &[u64]) -> bool
    requires { length a.now ≡ length b.now }
    ensures { result ≡ met a.now b.now }
{
    clause_kernel::met(a, b)
}

/// Tells whether each bit set in `a` is set in `b`.
#[unsafe(no_mangle)]
pub extern "C" fn clause_kernel_within(a: &[u64], b: &[u64]) -> bool
    requires { length a.now ≡ length b.now }
    ensures { result ≡ within a.now b.now }
{
    clause_kernel::within(a, b)
}

/// Tells whether the rows are equal.
#[unsafe(no_mangle)]
pub extern "C" fn clause_kernel_same(a: &[u64], b: &[u64]) -> bool
    requires { length a.now ≡ length b.now }
    ensures { result ≡ same_rows a.now b.now }
{
    clause_kernel::same(a, b)
}

/// Joins the bits of `b` to those of `a`.
#[unsafe(no_mangle)]
pub extern "C" fn clause_kernel_or_into(a: &mut [u64], b: &[u64])
    requires { length a.old ≡ length b.now }
    ensures { a.new ≡ joined a.old b.now }
{
    clause_kernel::or_into(a, b)
}

/// Keeps the bits of `a` that `b` has.
#[unsafe(no_mangle)]
pub extern "C" fn clause_kernel_and_into(a: &mut [u64], b: &[u64])
    requires { length a.old ≡ length b.now }
    ensures { a.new ≡ common a.old b.now }
{
    clause_kernel::and_into(a, b)
}

/// Takes the bits of `b` out of `a`.
#[unsafe(no_mangle)]
pub extern "C" fn clause_kernel_take_out(a: &mut [u64], b: &[u64])
    requires { length a.old ≡ length b.now }
    ensures { a.new ≡ remaining a.old b.now }
{
    clause_kernel::take_out(a, b)
}
