//! One sum of products serves every row and column.
ghost use Rattle.std.specs.Prelude.{◌≡◌, length};
ghost use Rattle.duality.specs.Lists.{places};
ghost use Rattle.duality.specs.Sums.{dot};
ghost use Rattle.job.specs.Strides.{strided, Reads};

/// The numbers of the table from `start` on, each `stride` after the one before, times those of z.
pub(crate) fn strided_dot(table: &[i64], start: usize, stride: usize, z: &[i64]) -> i64
    requires { Reads table.now start stride z.now }
    ensures { result ≡ dot (length z.now) (strided table.now start stride) (places z.now) }
{
    let mut sum = 0i64;
    for (k, x) in z.iter().enumerate() {
        let w = table[start + k * stride];
        sum += w * *x;
    }
    sum
}
