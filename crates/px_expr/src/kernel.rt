//! Kernels: functions of the caller's over columns.
ghost use Rattle.std.specs.Prelude.{◌≡◌, [], ◌∷◌, ◌++◌, ℕ, List, Option, map, option_map, length, slice_get, IfOk, OnOk, OnErr, Err};
ghost use Rattle.px_types.specs.declared.dtype.DataType.{DataType};
ghost use Rattle.px_semantics.specs.Rows.{TypedRows, Contents};
ghost use Rattle.px_expr.specs.Kernel.{Kernel, AnswersColumns, all_kernels, declared_at, answer_at};

use px_column::Column;
use px_types::{DataType, PlanError};
use std::alloc::{AllocError, Global};

/// A function of the caller's over columns. What it means is a definition over types and rows: no
/// name of an input is an argument of it.
pub trait ColumnsUdf: Drop {
    /// The type of the answer for inputs of these types, or none where the kernel takes no such
    /// inputs.
    ghost declared: { Self → List DataType → Option DataType };

    /// The rows of the answer with their type for these inputs, or none where the kernel fails.
    ghost answer: { Self → List TypedRows → Option TypedRows };

    /// The declared type for inputs of these types.
    fn output_type(&self, inputs: &[DataType]) -> Option<DataType>
        ensures { result ≡ declared self.now inputs.now };

    /// The answer for these inputs, whose lengths may differ. Its name means nothing. The only error is
    /// out of memory.
    fn call(&self, alloc: Global, inputs: &[Column]) -> Result<Option<Column>, AllocError>
        ensures { IfOk result (λ column. option_map (λ (c : Contents). c.values) column
            ≡ answer self.now (map (λ (c : Contents). c.values) inputs.now)) };

    /// For inputs that are columns the answer, where there is one, is a column.
    ghost answers_columns: { (kernel : Self) → AnswersColumns (answer kernel) };
}

// Boxed kernels are called here alone: a direct call in a longer function gets no proof.
fn output_type_of(kernel: &Box<dyn ColumnsUdf>, inputs: &[DataType]) -> Option<DataType>
    ensures { result ≡ declared kernel.now inputs.now }
{
    kernel.output_type(inputs)
}

fn call_boxed(
    kernel: &Box<dyn ColumnsUdf>,
    alloc: Global,
    inputs: &[Column],
) -> Result<Option<Column>, AllocError>
    ensures { IfOk result (λ column. option_map (λ (c : Contents). c.values) column
        ≡ answer kernel.now (map (λ (c : Contents). c.values) inputs.now)) }
{
    kernel.call(alloc, inputs)
}

/// The caller's kernels, in order. The number of a kernel is its position.
#[derive(Drop)]
pub struct KernelList {
    pub entries: Vec<Box<dyn ColumnsUdf>>,
}

impl KernelList {
    /// No kernels. It takes no memory.
    pub fn new(alloc: Global) -> KernelList
        ensures { result.entries.items ≡ [] }
    {
        KernelList {
            entries: Vec::new(alloc),
        }
    }

    /// The number of kernels.
    pub fn len(&self) -> usize
        ensures { result ≡ length self.now.entries.items }
    {
        self.entries.len()
    }

    /// The kernel of this number, and None exactly where no kernel has it.
    pub fn get(&self, i: usize) -> Option<&Box<dyn ColumnsUdf>>
        ensures { option_map (λ kernel. kernel.now) result ≡ slice_get self.now.entries.items i }
    {
        self.entries.get(i)
    }

    /// One more kernel, after the others. The only error is out of memory, and then the list is as it
    /// was.
    pub fn try_push(&mut self, kernel: Box<dyn ColumnsUdf>) -> Result<(), PlanError>
        ensures ok { OnOk result (self.new.entries.items ≡ self.old.entries.items ++ kernel ∷ []) }
        ensures err { OnErr result ((self.new.entries.items ≡ self.old.entries.items)
            × (result ≡ Err PlanError.OutOfMemory)) }
    {
        self.entries.push(kernel)?;
        Ok(())
    }
}

/// Kernels by their numbers, as definitions know them.
pub trait Kernels {
    /// What they are to a definition.
    ghost definitions: { Self → List Kernel };

    /// The number of kernels.
    fn kernel_count(&self) -> usize
        ensures { result ≡ length (definitions self.now) };

    /// What the kernel of this number declares. None also where no kernel has it.
    fn output_type_at(&self, kernel: usize, inputs: &[DataType]) -> Option<DataType>
        ensures { result ≡ declared_at (definitions self.now) kernel inputs.now };

    /// What the kernel of this number answers. None also where no kernel has it. The only error is out
    /// of memory.
    fn call_at(
        &self,
        alloc: Global,
        kernel: usize,
        inputs: &[Column],
    ) -> Result<Option<Column>, AllocError>
        ensures { IfOk result (λ column. option_map (λ (c : Contents). c.values) column
            ≡ answer_at (definitions self.now) kernel (map (λ (c : Contents). c.values) inputs.now)) };
}

impl Kernels for KernelList {
    ghost definitions = { λ ks. all_kernels (λ b. (ColumnsUdf-box b).declared b.value) (λ b. (ColumnsUdf-box b).answer b.value) ks.entries.items };

    fn kernel_count(&self) -> usize {
        self.entries.len()
    }

    fn output_type_at(&self, kernel: usize, inputs: &[DataType]) -> Option<DataType> {
        match self.get(kernel) {
            None => None,
            Some(kernel) => output_type_of(kernel, inputs),
        }
    }

    fn call_at(
        &self,
        alloc: Global,
        kernel: usize,
        inputs: &[Column],
    ) -> Result<Option<Column>, AllocError> {
        match self.get(kernel) {
            None => Ok(None),
            Some(kernel) => call_boxed(kernel, alloc, inputs),
        }
    }
}
