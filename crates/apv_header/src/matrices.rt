//! The quantisation matrices of a frame header (`quantization_matrix()`), read.
ghost use Rattle.std.specs.Prelude.{◌≡◌, ◌≤◌, ◌<◌, length, IfOk, IfErr};
ghost use Rattle.apv_base.specs.model.Format.{comps_of};
ghost use Rattle.apv_base.specs.model.Quant.{IsMatrix};
ghost use Rattle.apv_header.specs.Parts.{HasMatrixValue, MatrixValueBreaks, HasMatrix, MatrixBreaks};
ghost use Rattle.apv_header.specs.Parts.{HasMatricesOf, MatricesOfBreak, HasMatrices, MatricesBreak};
ghost use Rattle.apv_header.specs.Parts.{AreMatrices, AreFlatFrom, AreFlatUnlessStated};

use crate::fields::{read_byte, read_flag};
use apv_base::{Chroma, HeadEnd, Matrix, Rule};
use apv_bits::BitReader;

/// A value of a matrix (`q_matrix`). V15 where it is 0.
fn read_matrix_value(reader: &mut BitReader<'_>) -> Result<u8, HeadEnd>
    ensures ok { IfOk result (λ value. HasMatrixValue reader.old value reader.new) }
    ensures some { IfOk result (λ value. 0 < value) }
    ensures err { IfErr result (λ end. MatrixValueBreaks reader.old end) }
{
    let value = read_byte(reader)?;
    if value == 0 {
        return Err(HeadEnd::Rule(Rule::V15));
    }
    Ok(value)
}

/// The 64 values of a matrix, row after row, whatever follows them. V15 at the first that is 0.
fn read_matrix(reader: &mut BitReader<'_>) -> Result<Matrix, HeadEnd>
    ensures ok { IfOk result (λ matrix. HasMatrix reader.old matrix reader.new) }
    ensures matrix { IfOk result (λ matrix. IsMatrix matrix) }
    ensures err { IfErr result (λ end. MatrixBreaks reader.old end) }
{
    let mut values = [0; 64];
    for place in 0..64 {
        values[place] = read_matrix_value(reader)?;
    }
    let Some(matrix) = Matrix::of(values) else {
        unreachable!()
    };
    Ok(matrix)
}

/// The matrices of n components, and the flat matrix for the others.
fn read_matrices_of(reader: &mut BitReader<'_>, comps: usize) -> Result<[Matrix; 4], HeadEnd>
    requires { comps ≤ 4 }
    ensures ok { IfOk result (λ matrices. HasMatricesOf comps reader.old matrices reader.new) }
    ensures flat { IfOk result (λ matrices. AreFlatFrom comps matrices) }
    ensures four { IfOk result (λ matrices. length matrices ≡ 4) }
    ensures each { IfOk result (λ matrices. AreMatrices matrices) }
    ensures err { IfErr result (λ end. MatricesOfBreak comps reader.old end) }
{
    let mut matrices = [Matrix::flat(); 4];
    for comp in 0..comps {
        matrices[comp] = read_matrix(reader)?;
    }
    Ok(matrices)
}

/// `use_q_matrix`, and the matrix of each component: the flat one for all without `use_q_matrix`, and for a component
/// that the chroma format doesn't have. V15 at the first value that is 0, and V8 where the bits end.
pub fn read_matrices(
    reader: &mut BitReader<'_>,
    chroma: Chroma,
) -> Result<(bool, [Matrix; 4]), HeadEnd>
    ensures ok { IfOk result (λ read. HasMatrices (comps_of chroma) reader.old read reader.new) }
    ensures flat { IfOk result (λ read. AreFlatUnlessStated (comps_of chroma) read) }
    ensures four { IfOk result (λ read. length read.1 ≡ 4) }
    ensures each { IfOk result (λ read. AreMatrices read.1) }
    ensures err { IfErr result (λ end. MatricesBreak (comps_of chroma) reader.old end) }
{
    let present = read_flag(reader)?;
    if !present {
        return Ok((false, [Matrix::flat(); 4]));
    }
    let matrices = read_matrices_of(reader, usize::from(chroma.comps()))?;
    Ok((true, matrices))
}
