//! Flat columns, columns of nulls, and indices.
use crate::pages::{Form, Place, data_page, leaf, pages};
use columns_array::ArrayBox;
use columns_base::{Error, N, PhysicalType, Result, S};
use columns_core::DataType;
use leaf_iters::dict_indices_decoder;
use leaf_iters::null::iter_to_arrays;
use leaf_iters::simple::page_iter_to_arrays;
use pq_pages::VecPages;
use pq_tree::Repetition;
use std::alloc::Global;

fn has(item: Option<Result<ArrayBox>>, slots: usize) -> bool {
    match item {
        Some(Ok(array)) => array.len() == slots,
        _ => false,
    }
}

fn reads_flat(alloc: Global) -> Result<bool> {
    let pages = pages(
        alloc,
        PhysicalType::Int32,
        Place::Required,
        2,
        &[1, 0, 0, 0, 2, 0, 0, 0],
        2,
    )?;
    let leaf = leaf(alloc, Repetition::Required, PhysicalType::Int32);
    let mut iter = page_iter_to_arrays(alloc, pages, leaf, DataType::Int32, Some(3), 4)?;
    Ok(has(iter.next(), 3) && has(iter.next(), 1) && iter.next().is_none())
}

// Texts are no numbers of 32 bits.
fn refuses_texts(alloc: Global) -> Result<bool> {
    let leaf = leaf(alloc, Repetition::Required, PhysicalType::Int32);
    let pages = VecPages::new(Vec::new(alloc));
    Ok(
        match page_iter_to_arrays(alloc, pages, leaf, DataType::Utf8, None, 0) {
            Ok(_) => false,
            Err(error) => error == Error::NotYetImplemented(N::N5),
        },
    )
}

#[test]
fn flat_columns_are_read(rt: HostRuntime) -> Result<()> {
    assert!(rt; reads_flat(rt.alloc())?);
    assert!(rt; refuses_texts(rt.alloc())?);
    Ok(())
}

// Two pages of 100 values, of 101 rows.
fn reads_nulls(alloc: Global) -> Result<bool> {
    let pages = pages(alloc, PhysicalType::Int32, Place::Required, 100, &[], 2)?;
    let mut iter = iter_to_arrays(alloc, pages, DataType::Null, Some(10), 101)?;
    for _ in 0..10 {
        if !has(iter.next(), 10) {
            return Ok(false);
        }
    }
    Ok(has(iter.next(), 1) && iter.next().is_none())
}

#[test]
fn nulls_are_counted(rt: HostRuntime) -> Result<()> {
    assert!(rt; reads_nulls(rt.alloc())?);
    Ok(())
}

fn reads_indices(alloc: Global) -> Result<bool> {
    let page = data_page(
        alloc,
        PhysicalType::Int32,
        Place::Required,
        3,
        Form::Plain,
        &[0],
    )?;
    let mut indices = dict_indices_decoder(&page)?;
    for _ in 0..3 {
        if indices.next() != Some(Ok(0)) {
            return Ok(false);
        }
    }
    Ok(indices.next().is_none())
}

fn refuses_wide_indices(alloc: Global) -> Result<bool> {
    let page = data_page(
        alloc,
        PhysicalType::Int32,
        Place::Required,
        3,
        Form::Plain,
        &[33, 1],
    )?;
    Ok(match dict_indices_decoder(&page) {
        Ok(_) => false,
        Err(error) => error == Error::OutOfSpec(S::S6),
    })
}

#[test]
fn indices_are_read(rt: HostRuntime) -> Result<()> {
    assert!(rt; reads_indices(rt.alloc())?);
    assert!(rt; refuses_wide_indices(rt.alloc())?);
    Ok(())
}
